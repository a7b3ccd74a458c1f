// `piece layers`, of files in the order of their roots and layers.
ghost use Rattle.std.specs.Prelude.{◌≡◌, map, ◌+◌, ◌≤◌, ◌<◌, ◌^◌, length};
ghost use Rattle.octets.specs.Octets.{cut};
ghost use Rattle.bencode.specs.Grammar.{none};
ghost use Rattle.writer_meaning.specs.Content.{layers_given};
ghost use Rattle.writer_lists.specs.Lists.{record_size, item_at};
ghost use Rattle.writer_output.specs.Put.{Put};
ghost use Rattle.writer_order.specs.Order.{InForm, AllInForm};
ghost use Rattle.writer_output.specs.Layers.{repeats, layer_entry, layers_bytes, layer_of, root_seen, Inside};

use crate::plain::{put_byte, put_string};
use bencode::order::same;
use octets::number_at;
use sorting::index;

// Whether the record at `place` has the root of the record at `last`, which the entry before is of, if there was one.
fn root_repeats(list: &[u8], place: usize, last: Option<usize>) -> bool
    requires { (place + record_size ≤ length list.now) × Inside list.now last }
    ensures { result ≡ repeats (root_seen list.now last) (cut list.now (place + 8) 32) }
{
    match last {
        Some(p) => same(&list[p + 8..p + 40], &list[place + 8..place + 40]),
        None => false,
    }
}

// The root and the layer of the record at `place`, unless the root repeats.
fn put_layer(
    out: &mut [u8],
    at: usize,
    list: &[u8],
    text: &[u8],
    place: usize,
    last: Option<usize>,
) -> usize
    requires { InForm list.now text.now place × Inside list.now last
        × (at + length (layer_entry (root_seen list.now last) (layer_of (item_at list.now text.now place))) < 2 ^ 64) }
    ensures { Put out.old at
        (layer_entry (root_seen list.now last) (layer_of (item_at list.now text.now place)))
        out.new result }
{
    if root_repeats(list, place, last) {
        return at;
    }
    let start = number_at(list, place + 40, 4);
    let size = number_at(list, place + 40 + 4, 4);
    let value = put_string(out, at, &list[place + 8..place + 40]);
    put_string(out, value, &text[start..start + size])
}

// The entries of `piece layers` of the files whose records stand at `order`, and the end of it.
pub fn put_layers(out: &mut [u8], at: usize, list: &[u8], text: &[u8], order: &[u32]) -> usize
    requires { AllInForm list.now text.now order.now
        × (at + length (layers_bytes none (layers_given (map (item_at list.now text.now) order.now))) < 2 ^ 64) }
    ensures { Put out.old at
        (layers_bytes none (layers_given (map (item_at list.now text.now) order.now)))
        out.new result }
{
    let mut to = at;
    let mut last = None;
    for i in 0..order.len() {
        let place = index(order[i]);
        let size = number_at(list, place + 40 + 4, 4);
        if size != 0 {
            to = put_layer(out, to, list, text, place, last);
            last = Some(place);
        }
    }
    put_byte(out, to, b'e')
}
