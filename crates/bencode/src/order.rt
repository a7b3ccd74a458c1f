// Strings compared by their common front: whether they are the same, and which stands before the other; and the order of keys.
// Slices' own `==` and `<` go byte by byte; by the front four bytes are looked at at a time, which searches among many keys rest on.
ghost use Rattle.std.specs.Prelude.{◌≡◌, length, drop};
ghost use Rattle.octets.specs.Octets as O;
ghost use Rattle.bencode.specs.Grammar.{precedes};
ghost use Rattle.bencode.specs.Scalar.{Within};
ghost use Rattle.bencode.specs.Walk.{read_key, key_before};

use crate::front::front;
use crate::part::Part;
use crate::scalar::read_string;

// Whether `one` and `other` are the same bytes.
pub fn same(one: &[u8], other: &[u8]) -> bool
    ensures { result ≡ O.same one.now other.now }
{
    if one.len() != other.len() {
        return false;
    }
    let n = front(one, other);
    n == one.len()
}

// Whether `one` stands before `other`: at the first byte that differs `one` has the smaller one, or `one` is `other`'s beginning.
pub fn comes_before(one: &[u8], other: &[u8]) -> bool
    ensures { result ≡ precedes one.now other.now }
{
    let n = front(one, other);
    if other.len() <= n {
        return false;
    }
    if one.len() <= n {
        return true;
    }
    one[n] < other[n]
}

// The string at `at` if it is a key: it stands after the key before it, if there was one.
pub fn read_key(bytes: &[u8], at: usize, before: Option<Part>) -> Option<Part>
    requires { Within (length bytes.now) before }
    ensures { result ≡ read_key (key_before before bytes.now) at (drop at bytes.now) }
{
    let key = read_string(bytes, at)?;
    match before {
        None => Some(key),
        Some(last) => {
            if comes_before(&bytes[last.start..last.end], &bytes[key.start..key.end]) {
                Some(key)
            } else {
                None
            }
        }
    }
}
