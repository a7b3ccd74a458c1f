// The file tree, written from left to right in tree order.
ghost use Rattle.std.specs.Prelude.{[], map, ◌+◌, ◌≤◌, ◌<◌, ◌^◌, length};
ghost use Rattle.writer_meaning.specs.Content.{properties};
ghost use Rattle.writer_meaning.specs.Written.{file_bytes, tree_bytes};
ghost use Rattle.writer_lists.specs.Lists.{record_size, item_at};
ghost use Rattle.writer_order.specs.Order.{AllInForm};
ghost use Rattle.writer_output.specs.Put.{Put};
ghost use Rattle.writer_output.specs.Path.{path_in, Standing};
ghost use Rattle.writer_output.specs.Files.{properties_bytes, file_in};

use crate::path::{put_closed, put_opened, shared_end};
use crate::plain::{put_byte, put_bytes, put_decimal, put_string};
use octets::number_at;
use sorting::index;

// The empty key and a file's properties: its length, and its root if it is not empty.
fn put_properties(out: &mut [u8], at: usize, size: usize, root: &[u8]) -> usize
    requires { at + length (properties_bytes size root.now) < 2 ^ 64 }
    ensures { Put out.old at (properties_bytes size root.now) out.new result }
{
    let number = put_bytes(out, at, b"0:d6:lengthi");
    let behind = put_decimal(out, number, size);
    if size == 0 {
        return put_bytes(out, behind, b"ee");
    }
    let value = put_bytes(out, behind, b"e11:pieces root");
    let end = put_string(out, value, root);
    put_byte(out, end, b'e')
}

// A file with path `other`, whose record stands at `place`, behind one with path `one`.
fn put_file(out: &mut [u8], at: usize, one: &[u8], other: &[u8], list: &[u8], place: usize) -> usize
    requires { Standing one.now 0 × Standing other.now 0 × (place + record_size ≤ length list.now)
        × (at + length (file_bytes (path_in one.now) (path_in other.now) (properties (file_in list.now place))) < 2 ^ 64) }
    ensures { Put out.old at
        (file_bytes (path_in one.now) (path_in other.now) (properties (file_in list.now place)))
        out.new result }
{
    let m = shared_end(one, other);
    let closed = put_closed(out, at, one, m);
    let opened = put_opened(out, closed, other, m);
    let size = number_at(list, place, 8);
    put_properties(out, opened, size, &list[place + 8..place + 40])
}

// The entries of the file tree of the files whose records stand at `order`, which is tree order, and the end of it.
pub fn put_tree(out: &mut [u8], at: usize, list: &[u8], text: &[u8], order: &[u32]) -> usize
    requires { AllInForm list.now text.now order.now
        × (at + length (tree_bytes [] (map (item_at list.now text.now) order.now)) < 2 ^ 64) }
    ensures { Put out.old at
        (tree_bytes [] (map (item_at list.now text.now) order.now)) out.new result }
{
    let mut to = at;
    let mut start = 0;
    let mut size = 0;
    for i in 0..order.len() {
        let place = index(order[i]);
        let s = number_at(list, place + 48, 4);
        let m = number_at(list, place + 48 + 4, 4);
        to = put_file(
            out,
            to,
            &text[start..start + size],
            &text[s..s + m],
            list,
            place,
        );
        start = s;
        size = m;
    }
    let last = put_byte(out, to, b'e');
    put_closed(out, last, &text[start..start + size], 0)
}
