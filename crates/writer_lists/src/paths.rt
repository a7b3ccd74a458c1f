// Paths in tree order, element by element: `a/b` stands before `a.txt`.
ghost use Rattle.std.specs.Prelude.{◌≡◌, true, ◌+◌, ◌≤◌, length};
ghost use Rattle.writer_meaning.specs.Content.{path_before, item_before};
ghost use Rattle.writer_meaning.specs.Number.{begins};
ghost use Rattle.writer_lists.specs.Lists.{elements_fit, elements_in, item_at, form_at};
ghost use Rattle.writer_lists.specs.Walk.{Walk};

use crate::word::word_at;
use bencode::front::front;
use bencode::order::{comes_before, same};

// Whether the path `one` stands before the path `other`, whose elements before a position are the same. As long as they are, both are at one
// position.
fn before_from(one: &[u8], other: &[u8], from: usize) -> bool
    requires { Walk path_before one.now other.now from }
    ensures { result ≡ path_before (elements_in (length one.now) one.now)
        (elements_in (length other.now) other.now) }
{
    let mut at = from;
    // A `while`: the position moves by what was read there.
    while at < one.len() {
        if other.len() <= at {
            return false;
        }
        let m = word_at(one, at);
        let n = word_at(other, at);
        let start = at + 4;
        let x = &one[start..start + m];
        let y = &other[start..start + n];
        if !same(x, y) {
            return comes_before(x, y);
        }
        at = start + m;
    }
    at < other.len()
}

// Whether the path `one` stands before the path `other`. Their common bytes are looked at first: elements that end within them are the same, and
// where the first byte that differs is not one of a size, it decides.
pub fn path_before(one: &[u8], other: &[u8]) -> bool
    requires { (elements_fit (length one.now) one.now ≡ true) × (elements_fit (length other.now) other.now ≡ true) }
    ensures { result ≡ path_before (elements_in (length one.now) one.now)
        (elements_in (length other.now) other.now) }
{
    let n = front(one, other);
    let mut at = 0;
    // A `while`: the position moves by what was read there.
    while at < one.len() {
        let m = word_at(one, at);
        let start = at + 4;
        let end = start + m;
        if n < end {
            if n < start {
                return before_from(one, other, at);
            }
            return one[n] < other[n];
        }
        at = end;
    }
    at < other.len()
}

// Whether the path `other` leads to, or through, where the path `one` ends.
pub fn path_begins(one: &[u8], other: &[u8]) -> bool
    requires { (elements_fit (length one.now) one.now ≡ true) × (elements_fit (length other.now) other.now ≡ true) }
    ensures { result ≡ begins (elements_in (length one.now) one.now)
        (elements_in (length other.now) other.now) }
{
    let mut at = 0;
    // A `while`: the position moves by what was read there.
    while at < one.len() {
        if other.len() <= at {
            return false;
        }
        let m = word_at(one, at);
        let n = word_at(other, at);
        let start = at + 4;
        if !same(&one[start..start + m], &other[start..start + n]) {
            return false;
        }
        at = start + m;
    }
    true
}

// Whether the file of the record at `other` stands where, or below where, the file of the record at `one` does.
pub fn leads(list: &[u8], text: &[u8], one: usize, other: usize) -> bool
    requires { (one + 56 ≤ length list.now) × (other + 56 ≤ length list.now) × (form_at list.now text.now one ≡ true)
        × (form_at list.now text.now other ≡ true) }
    ensures { result ≡ begins (item_at list.now text.now one).path
        (item_at list.now text.now other).path }
{
    let s = word_at(list, one + 48);
    let m = word_at(list, one + 48 + 4);
    let t = word_at(list, other + 48);
    let n = word_at(list, other + 48 + 4);
    path_begins(&text[s..s + m], &text[t..t + n])
}

// Whether the file of the record at `one` stands before the file of the record at `other`. A path is not compared with itself.
pub fn lower(list: &[u8], text: &[u8], one: usize, other: usize) -> bool
    requires { (one + 56 ≤ length list.now) × (other + 56 ≤ length list.now) × (form_at list.now text.now one ≡ true)
        × (form_at list.now text.now other ≡ true) }
    ensures { result ≡ item_before (item_at list.now text.now one)
        (item_at list.now text.now other) }
{
    let s = word_at(list, one + 48);
    let m = word_at(list, one + 48 + 4);
    let t = word_at(list, other + 48);
    let n = word_at(list, other + 48 + 4);
    if s == t && m == n {
        return false;
    }
    path_before(&text[s..s + m], &text[t..t + n])
}
