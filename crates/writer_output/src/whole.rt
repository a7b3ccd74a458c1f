// The torrent in two parts: up to the entries of `piece layers`, of files in tree order; from there on, of files by root and layer. Each
// part can be measured, and written at its place.
ghost use Rattle.std.specs.Prelude.{◌≡◌, map, ◌+◌, ◌≤◌, ◌<◌, ◌^◌, length, ltb};
ghost use Rattle.writer_lists.specs.Lists.{item_at};
ghost use Rattle.writer_output.specs.Put.{Put};
ghost use Rattle.writer_order.specs.Order.{AllInForm, most_files};
ghost use Rattle.writer_output.specs.Whole.{info_bytes, rest_bytes};

use crate::file::put_tree;
use crate::layer::put_layers;
use crate::plain::{put_byte, put_bytes, put_decimal, put_string};
use limits::LARGEST_TORRENT;

// More files do not go into a torrent: each takes 15 bytes or more.
pub const MOST_FILES: usize = LARGEST_TORRENT / 15;

// Whether so many files are too many, whatever they are.
pub fn too_many(count: usize) -> bool
    ensures { result ≡ ltb most_files count }
{
    MOST_FILES < count
}

// The first part, of the files whose records stand at `order`, which is tree order.
pub fn put_info(
    out: &mut [u8],
    at: usize,
    list: &[u8],
    text: &[u8],
    order: &[u32],
    plen: usize,
    name: &[u8],
) -> usize
    requires { AllInForm list.now text.now order.now
        × (at + length (info_bytes plen name.now (map (item_at list.now text.now) order.now)) < 2 ^ 64) }
    ensures { Put out.old at
        (info_bytes plen name.now (map (item_at list.now text.now) order.now))
        out.new result }
{
    let tree = put_bytes(out, at, b"d4:infod9:file treed");
    let version = put_tree(out, tree, list, text, order);
    let value = put_bytes(out, version, b"12:meta versioni2e4:name");
    let key = put_string(out, value, name);
    let number = put_bytes(out, key, b"12:piece lengthi");
    let end = put_decimal(out, number, plen);
    put_bytes(out, end, b"ee12:piece layersd")
}

// The second part, of the files whose records stand at `order`, which is by root and layer.
pub fn put_rest(out: &mut [u8], at: usize, list: &[u8], text: &[u8], order: &[u32]) -> usize
    requires { AllInForm list.now text.now order.now
        × (at + length (rest_bytes (map (item_at list.now text.now) order.now)) < 2 ^ 64) }
    ensures { Put out.old at
        (rest_bytes (map (item_at list.now text.now) order.now)) out.new result }
{
    let end = put_layers(out, at, list, text, order);
    put_byte(out, end, b'e')
}

// The bytes of the first part.
pub fn info_size(list: &[u8], text: &[u8], order: &[u32], plen: usize, name: &[u8]) -> usize
    requires { AllInForm list.now text.now order.now × (length order.now ≤ most_files) }
    ensures { (result ≡ length
        (info_bytes plen name.now (map (item_at list.now text.now) order.now)))
        × (result < 2 ^ 63 + 2 ^ 62) }
{
    let mut nowhere = [0u8; 1];
    put_info(&mut nowhere, 0, list, text, order, plen, name)
}

// The bytes of the second part.
pub fn rest_size(list: &[u8], text: &[u8], order: &[u32]) -> usize
    requires { AllInForm list.now text.now order.now × (length order.now ≤ most_files) }
    ensures { (result ≡ length (rest_bytes (map (item_at list.now text.now) order.now)))
        × (result < 2 ^ 62) }
{
    let mut nowhere = [0u8; 1];
    put_rest(&mut nowhere, 0, list, text, order)
}
