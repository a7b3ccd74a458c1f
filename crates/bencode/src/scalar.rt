// Strings and integers: the values that hold no others.
ghost use Rattle.std.specs.Prelude.{◌≡◌, drop};
ghost use Rattle.bencode.specs.Scalar.{read_string, read_signed, read_integer};

use crate::decimal::{BOUND, Number, read_number};
use crate::part::Part;

// An integer: whether it has a minus, its size, and the position past it.
#[derive(Clone, Copy)]
pub struct Integer {
    pub minus: bool,
    pub size: usize,
    pub next: usize,
}

// The content of the string whose encoding begins at `at`. The encoding ends where the content ends.
pub fn read_string(bytes: &[u8], at: usize) -> Option<Part>
    ensures { result ≡ read_string at (drop at bytes.now) }
{
    let Number { value, next } = read_number(bytes, at, b':')?;
    if value <= bytes.len() - next {
        Some(Part {
            start: next,
            end: next + value,
        })
    } else {
        None
    }
}

// An integer past its `i`. Minus zero is none, and neither is one outside 64 bits.
pub fn read_signed(bytes: &[u8], at: usize) -> Option<Integer>
    ensures { result ≡ read_signed at (drop at bytes.now) }
{
    if bytes.len() <= at {
        return None;
    }
    if bytes[at] == b'-' {
        let Number { value, next } = read_number(bytes, at + 1, b'e')?;
        if value == 0 {
            None
        } else {
            Some(Integer {
                minus: true,
                size: value,
                next,
            })
        }
    } else {
        let Number { value, next } = read_number(bytes, at, b'e')?;
        if value < BOUND {
            Some(Integer {
                minus: false,
                size: value,
                next,
            })
        } else {
            None
        }
    }
}

// The integer whose encoding begins at `at`.
pub fn read_integer(bytes: &[u8], at: usize) -> Option<Integer>
    ensures { result ≡ read_integer at (drop at bytes.now) }
{
    if bytes.len() <= at {
        return None;
    }
    if bytes[at] == b'i' {
        read_signed(bytes, at + 1)
    } else {
        None
    }
}
