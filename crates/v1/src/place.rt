// File n of the list v that `files` is: a walk over its entries, padding included.
ghost use Rattle.std.specs.Prelude.{◌≡◌};
ghost use Rattle.bencode.specs.Grammar.{Items};
ghost use Rattle.halves.specs.V1Half.{entries_in};
ghost use Rattle.v1.specs.Place.{spot_of, Fitting, is_sought, left_behind};

use hybrid::{MOST_BYTES, read_v1};

// Where a file begins among the bytes of all entries, padding included, and its length.
#[derive(Clone, Copy)]
pub struct Spot {
    pub start: usize,
    pub length: usize,
}

// Whether an entry is the file sought, with so many files still to pass.
fn is_sought(padding: bool, left: usize) -> bool
    ensures { result ≡ is_sought padding left }
{
    if padding {
        return false;
    }
    left == 0
}

// How many files are still to pass behind an entry.
fn left_behind(padding: bool, left: usize) -> usize
    ensures { result ≡ left_behind padding left }
{
    if padding {
        return left;
    }
    if left == 0 {
        return 0;
    }
    left - 1
}

// File `file` of `list`.
pub fn file_at(list: &[u8], file: usize) -> Spot
    ensures { (vs : Items) → Fitting list.now vs → result ≡ spot_of (entries_in vs) file }
{
    let mut i = 1;
    let mut left = file;
    let mut start = 0;
    // A cursor: the next position comes from the bytes, so no index is counted.
    while i < list.len() {
        match read_v1(list, i) {
            Err(_) => {
                return Spot {
                    start: 0,
                    length: 0,
                }; // never: each entry is well formed
            }
            Ok(None) => {
                return Spot { start, length: 0 };
            }
            Ok(Some(entry)) => {
                let padding = entry.padding;
                let length = entry.length;
                if is_sought(padding, left) {
                    return Spot { start, length };
                }
                if length > MOST_BYTES - start {
                    return Spot {
                        start: 0,
                        length: 0,
                    }; // never: there are not so many bytes
                }
                left = left_behind(padding, left);
                start += length;
                i = entry.next;
            }
        }
    }
    Spot {
        start: 0,
        length: 0,
    } // never: the list ends before its bytes do
}
