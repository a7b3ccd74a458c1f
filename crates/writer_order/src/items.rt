// What a file alone may have wrong: a path too deep (21), a wrong path, length or root (25), a layer of a wrong size (27).
ghost use Rattle.std.specs.Prelude.{◌≡◌, Bool, true, not, List, ℕ, ◌+◌, ◌≤◌, length};
ghost use Rattle.meaning.specs.Torrent.{element_right};
ghost use Rattle.writer_meaning.specs.Content.{Item};
ghost use Rattle.writer_meaning.specs.Number.{some, too_deep, wrong_item, misfit};
ghost use Rattle.writer_lists.specs.Lists.{elements_fit, elements_in, item_at, list_form, content_of};
ghost use Rattle.writer_order.specs.Order.{InForm};

use bencode::order::same;
use filetree::element::element_right;
use octets::{hash_at, number_at};
use tree::geometry::{has_layer, piece_count};
use tree::values::pad_value;

// How many elements a path has.
fn depth(path: &[u8]) -> usize
    requires { elements_fit (length path.now) path.now ≡ true }
    ensures { (result ≡ length (elements_in (length path.now) path.now)) × (result ≤ length path.now) }
{
    let mut n = 0;
    let mut at = 0;
    // A `while`: the position moves by what was read there.
    while at < path.len() {
        let m = number_at(path, at, 4);
        at = at + 4 + m;
        n += 1;
    }
    n
}

// Whether one of its elements is not right.
fn wrong_element(path: &[u8]) -> bool
    requires { elements_fit (length path.now) path.now ≡ true }
    ensures { result ≡ some (λ (e : List ℕ). not (element_right e)) (elements_in (length path.now) path.now) }
{
    let mut at = 0;
    // A `while`: the position moves by what was read there.
    while at < path.len() {
        let m = number_at(path, at, 4);
        let start = at + 4;
        if !element_right(path, start, m) {
            return true;
        }
        at = start + m;
    }
    false
}

// 21: whether the path of the file of the record at p is too deep.
pub fn too_deep(list: &[u8], text: &[u8], p: usize) -> bool
    requires { InForm list.now text.now p }
    ensures { result ≡ too_deep (item_at list.now text.now p) }
{
    let s = number_at(list, p + 48, 4);
    let m = number_at(list, p + 48 + 4, 4);
    let elements = depth(&text[s..s + m]);
    limits::LEVELS < elements + 4
}

// 25: whether its path, its length or its root is wrong.
pub fn wrong_item(list: &[u8], text: &[u8], p: usize) -> bool
    requires { InForm list.now text.now p }
    ensures { result ≡ wrong_item (item_at list.now text.now p) }
{
    let s = number_at(list, p + 48, 4);
    let m = number_at(list, p + 48 + 4, 4);
    if m == 0 {
        return true;
    }
    if wrong_element(&text[s..s + m]) {
        return true;
    }
    let n = number_at(list, p, 8);
    if limits::LONGEST_FILE < n {
        return true;
    }
    if n != 0 {
        return false;
    }
    let root = hash_at(list, p + 8);
    let none = pad_value(0);
    if octets::same(root, none) {
        return false;
    }
    true
}

// 27: whether its layer has a wrong size.
pub fn misfits(list: &[u8], text: &[u8], plen: usize, p: usize) -> bool
    requires { InForm list.now text.now p }
    ensures { result ≡ misfit plen (item_at list.now text.now p) }
{
    let n = number_at(list, p, 8);
    let m = number_at(list, p + 40 + 4, 4);
    if !has_layer(n, plen) {
        return m != 0;
    }
    if m % 32 != 0 {
        return true;
    }
    let pieces = piece_count(n, plen);
    m / 32 != pieces
}

// Whether one of a list's files fails a test, which is given the position of its record.
pub fn one_fails<F: Fn(usize) -> bool>(list: &[u8], text: &[u8], fails: F) -> bool
    requires { (list_form list.now text.now ≡ true) × ((p : ℕ) → InForm list.now text.now p → F.pre fails p) }
    ensures { (test : Item → Bool)
        → ((p : ℕ) (r : Bool) → InForm list.now text.now p → F.post fails p r → r ≡ test (item_at list.now text.now p))
        → result ≡ some test (content_of list.now text.now) }
{
    let n = list.len() / writer_lists::form::RECORD;
    for i in 0..n {
        if fails(writer_lists::form::RECORD * i) {
            return true;
        }
    }
    false
}
