// Bytes, numbers in decimal, and strings with their length in front.
ghost use Rattle.std.specs.Prelude.{◌+◌, ◌<◌, ◌^◌, [], ◌∷◌, length};
ghost use Rattle.bencode.specs.Grammar.{decimal, encode_string};
ghost use Rattle.writer_output.specs.Put.{Put};

// One byte.
pub fn put_byte(out: &mut [u8], at: usize, byte: u8) -> usize
    requires { at + 1 < 2 ^ 64 }
    ensures { Put out.old at (byte ∷ []) out.new result }
{
    if at < out.len() {
        out[at] = byte;
        return at + 1;
    }
    at + 1
}

// All of `bytes`.
pub fn put_bytes(out: &mut [u8], at: usize, bytes: &[u8]) -> usize
    requires { at + length bytes.now < 2 ^ 64 }
    ensures { Put out.old at bytes.now out.new result }
{
    let n = bytes.len();
    let end = at + n;
    if out.len() < end {
        return end;
    }
    // A `for`: `copy_from_slice` is no inlined call, and most strings are short.
    for i in 0..n {
        out[at + i] = bytes[i];
    }
    end
}

// A number in decimal: the digits before the last first.
pub fn put_decimal(out: &mut [u8], at: usize, number: usize) -> usize
    requires { at + length (decimal number) < 2 ^ 64 }
    ensures { Put out.old at (decimal number) out.new result }
{
    let digit = (48 + number % 10) as u8;
    if number < 10 {
        return put_byte(out, at, digit);
    }
    let last = put_decimal(out, at, number / 10);
    put_byte(out, last, digit)
}

// A string: its length, a colon, its bytes.
pub fn put_string(out: &mut [u8], at: usize, bytes: &[u8]) -> usize
    requires { at + length (encode_string bytes.now) < 2 ^ 64 }
    ensures { Put out.old at (encode_string bytes.now) out.new result }
{
    let n = bytes.len();
    let colon = put_decimal(out, at, n);
    let start = put_byte(out, colon, b':');
    put_bytes(out, start, bytes)
}
