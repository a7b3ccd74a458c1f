// The strict walk over a value, from the left. Values inside one another by recursion, with the levels left; values side by side by a loop.
ghost use Rattle.std.specs.Prelude.{◌≡◌, drop};
ghost use Rattle.bencode.specs.Scalar.{read_string, read_signed};
ghost use Rattle.bencode.specs.Walk.{past_integer, past_string, walk_list, walk_dictionary, walk_value};
ghost use Rattle.bencode.specs.Strict.{strictness};
ghost use Rattle.numbers.specs.Refusals.{code_of};

use crate::order::read_key;
use crate::part::Part;
use crate::scalar::{read_signed, read_string};
use limits::LEVELS;
use numbers::Refused;

// What is wrong first with a value: its bytes, or a depth past the levels.
#[derive(Clone, Copy)]
pub enum Amiss {
    Broken,
    TooDeep,
}

// Past an integer, from behind its `i`.
fn integer_end(bytes: &[u8], at: usize) -> Result<usize, Amiss>
    ensures { result ≡ past_integer (read_signed at (drop at bytes.now)) }
{
    match read_signed(bytes, at) {
        None => Err(Amiss::Broken),
        Some(integer) => Ok(integer.next),
    }
}

fn string_end(bytes: &[u8], at: usize) -> Result<usize, Amiss>
    ensures { result ≡ past_string (read_string at (drop at bytes.now)) }
{
    match read_string(bytes, at) {
        Some(Part { start: _, end }) => Ok(end),
        None => Err(Amiss::Broken),
    }
}

// Past a list, from behind its `l`.
#[cycle(dictionary_end_list_end_value_end)]
fn list_end(bytes: &[u8], at: usize, levels: usize) -> Result<usize, Amiss>
    ensures { result ≡ walk_list (walk_value levels) at (drop at bytes.now) }
{
    let mut i = at; // a cursor: the next position comes from the bytes
    while i < bytes.len() {
        if bytes[i] == b'e' {
            return Ok(i + 1);
        }
        i = value_end(bytes, i, levels)?;
    }
    Err(Amiss::Broken)
}

// Past a dictionary, from behind its `d`, with the key before once there was one.
#[cycle(dictionary_end_list_end_value_end)]
fn dictionary_end(bytes: &[u8], at: usize, levels: usize) -> Result<usize, Amiss>
    ensures { result ≡ walk_dictionary (walk_value levels) at (drop at bytes.now) }
{
    let mut i = at; // a cursor: the next position comes from the bytes
    let mut before: Option<Part> = None;
    while i < bytes.len() {
        if bytes[i] == b'e' {
            return Ok(i + 1);
        }
        match read_key(bytes, i, before) {
            None => {
                return Err(Amiss::Broken);
            }
            Some(key) => {
                i = value_end(bytes, key.end, levels)?;
                before = Some(key);
            }
        }
    }
    Err(Amiss::Broken)
}

// Past the value at `at`, with so many levels left.
#[cycle(dictionary_end_list_end_value_end)]
pub fn value_end(bytes: &[u8], at: usize, levels: usize) -> Result<usize, Amiss>
    ensures { result ≡ walk_value levels at (drop at bytes.now) }
{
    if bytes.len() <= at {
        return Err(Amiss::Broken);
    }
    let c = bytes[at];
    if c == b'i' {
        return integer_end(bytes, at + 1);
    }
    if c == b'l' {
        if levels == 0 {
            return Err(Amiss::TooDeep);
        }
        return list_end(bytes, at + 1, levels - 1);
    }
    if c == b'd' {
        if levels == 0 {
            return Err(Amiss::TooDeep);
        }
        return dictionary_end(bytes, at + 1, levels - 1);
    }
    string_end(bytes, at)
}

// One dictionary in strict bencoding and nothing after it; else 20 or 21.
pub fn strict(bytes: &[u8]) -> Result<(), Refused>
    ensures { code_of result ≡ strictness bytes.now }
{
    if bytes.len() == 0 {
        return Err(Refused::NotStrict);
    }
    if bytes[0] != b'd' {
        return Err(Refused::NotStrict);
    }
    match value_end(bytes, 0, LEVELS) {
        Err(Amiss::Broken) => Err(Refused::NotStrict),
        Err(Amiss::TooDeep) => Err(Refused::NestedTooDeeply),
        Ok(k) => {
            if k == bytes.len() {
                Ok(())
            } else {
                Err(Refused::NotStrict)
            }
        }
    }
}
