// A file's path behind the path of the file before: how far they are the same, the nodes closed and the nodes opened.
ghost use Rattle.std.specs.Prelude.{◌+◌, ◌<◌, ◌^◌, length};
ghost use Rattle.writer_meaning.specs.Written.{opened, closed};
ghost use Rattle.writer_output.specs.Put.{Put};
ghost use Rattle.writer_output.specs.Path.{left_in, Standing, SharedTo};

use crate::plain::{put_byte, put_string};
use octets::number_at;

// The position up to which two paths have the same elements.
pub fn shared_end(one: &[u8], other: &[u8]) -> usize
    requires { Standing one.now 0 × Standing other.now 0 }
    ensures { SharedTo one.now other.now result }
{
    let mut at = 0;
    // A `while`: the position moves by what was read there.
    while at < one.len() {
        if other.len() <= at {
            return at;
        }
        let m = number_at(one, at, 4);
        let n = number_at(other, at, 4);
        let start = at + 4;
        let x = &one[start..start + m];
        let y = &other[start..start + n];
        if !bencode::order::same(x, y) {
            return at;
        }
        at = start + m;
    }
    at
}

// An `e` for each element from a position on.
pub fn put_closed(out: &mut [u8], at: usize, path: &[u8], from: usize) -> usize
    requires { Standing path.now from × (at + length (left_in path.now from) < 2 ^ 64) }
    ensures { Put out.old at (closed (length (left_in path.now from))) out.new result }
{
    let mut to = at;
    let mut i = from;
    // A `while`: the position moves by what was read there.
    while i < path.len() {
        let m = number_at(path, i, 4);
        to = put_byte(out, to, b'e');
        i = i + 4 + m;
    }
    to
}

// The key of each element from a position on, with a dictionary begun behind it.
pub fn put_opened(out: &mut [u8], at: usize, path: &[u8], from: usize) -> usize
    requires { Standing path.now from × (at + length (opened (left_in path.now from)) < 2 ^ 64) }
    ensures { Put out.old at (opened (left_in path.now from)) out.new result }
{
    let mut to = at;
    let mut i = from;
    // A `while`: the position moves by what was read there.
    while i < path.len() {
        let m = number_at(path, i, 4);
        let start = i + 4;
        let end = start + m;
        let inside = put_string(out, to, &path[start..end]);
        to = put_byte(out, inside, b'd');
        i = end;
    }
    to
}
