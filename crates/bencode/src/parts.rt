// Values as the parts of the bytes that they stand in: an entry, the value of a key. For any bytes; where they are not
// strict, there is nothing to be found from that place on.
ghost use Rattle.std.specs.Prelude.{◌≡◌, drop};
ghost use Rattle.bencode.specs.Parts.{read_entry, find_key, is_dictionary};

use crate::order::same;
use crate::part::Part;
use crate::scalar::read_string;
use crate::walk::value_end;
use limits::LEVELS;

// A dictionary's entry: its key's content is start..value, and its value's part value..end.
#[derive(Clone, Copy)]
pub struct Entry {
    pub start: usize,
    pub value: usize,
    pub end: usize,
}

// Whether a dictionary begins at `at`.
pub fn is_dictionary(bytes: &[u8], at: usize) -> bool
    ensures { result ≡ is_dictionary (drop at bytes.now) }
{
    if bytes.len() <= at {
        return false;
    }
    bytes[at] == b'd'
}

// The entry of a dictionary that begins at `at`: the first behind the `d`, each other where the one before ends, none at the `e`.
pub fn read_entry(bytes: &[u8], at: usize) -> Option<Entry>
    ensures { result ≡ read_entry at (drop at bytes.now) }
{
    let key = read_string(bytes, at)?;
    match value_end(bytes, key.end, LEVELS) {
        Err(_) => None,
        Ok(end) => Some(Entry {
            start: key.start,
            value: key.end,
            end,
        }),
    }
}

// The part that is the value of `key` in the dictionary that begins at `at`.
pub fn find(bytes: &[u8], at: usize, key: &[u8]) -> Option<Part>
    ensures { result ≡ find_key key.now at (drop at bytes.now) }
{
    if !is_dictionary(bytes, at) {
        return None;
    }
    let mut i = at + 1; // the next position comes from the bytes
    while let Some(entry) = read_entry(bytes, i) {
        if same(key, &bytes[entry.start..entry.value]) {
            return Some(Part {
                start: entry.value,
                end: entry.end,
            });
        }
        i = entry.end;
    }
    None
}
