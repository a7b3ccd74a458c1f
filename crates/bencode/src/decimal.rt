// Numbers in decimal, without leading zeros, as they stand in a string's length and in an integer.
ghost use Rattle.std.specs.Prelude.{◌≡◌, drop};
ghost use Rattle.bencode.specs.Scalar.{bounded, read_digits, read_zero, read_number};

// A number, with the position past the byte that stops it.
#[derive(Clone, Copy)]
pub struct Number {
    pub value: usize,
    pub next: usize,
}

// No integer's size is above 2^63, and no length of a slice.
pub const BOUND: usize = 9223372036854775808;

// A number above this is past the bound with one digit more.
const TENTH: usize = 922337203685477580;

// Digits from `at` up to `stop`. A number above the bound is none, so that no product wraps.
fn digits(bytes: &[u8], at: usize, stop: u8) -> Option<Number>
    ensures { result ≡ bounded (read_digits stop 0 at (drop at bytes.now)) }
{
    let mut n: usize = 0;
    for i in at..bytes.len() {
        let c = bytes[i];
        if c == stop {
            if n <= BOUND {
                return Some(Number {
                    value: n,
                    next: i + 1,
                });
            }
            return None;
        }
        if c < b'0' {
            return None;
        }
        if b'9' < c {
            return None;
        }
        if TENTH < n {
            return None;
        }
        n = n * 10 + (octets::wide(c) - 48);
    }
    None
}

// What follows a first digit 0: nothing but `stop`.
fn lone_zero(bytes: &[u8], at: usize, stop: u8) -> Option<Number>
    ensures { result ≡ read_zero stop at (drop at bytes.now) }
{
    if bytes.len() <= at {
        return None;
    }
    if bytes[at] == stop {
        Some(Number {
            value: 0,
            next: at + 1,
        })
    } else {
        None
    }
}

// A number up to `stop`.
pub fn read_number(bytes: &[u8], at: usize, stop: u8) -> Option<Number>
    ensures { result ≡ bounded (read_number stop at (drop at bytes.now)) }
{
    if bytes.len() <= at {
        return None;
    }
    let c = bytes[at];
    if c == b'0' {
        return lone_zero(bytes, at + 1, stop);
    }
    if c == stop {
        return None;
    }
    digits(bytes, at, stop)
}
