// A torrent written of a list of files. Everything is worked out before the first byte is written: the list's form, the size of the
// torrent, its number, the room. The files are sorted by the positions of their records, on the stack.
#![tactic(auto)]

ghost use Rattle.std.specs.Prelude.{◌≡◌, ◌≤◌, length};
ghost use Rattle.octets.specs.Octets.{pasted};
ghost use Rattle.numbers.specs.Refusals.{answer_of};
ghost use Rattle.writer_meaning.specs.Content.{item_before};
ghost use Rattle.writer_meaning.specs.Number.{content_number};
ghost use Rattle.writer_lists.specs.Lists.{content_of};
ghost use Rattle.writer_order.specs.Order.{InOrder, most_files};
ghost use Rattle.writer.specs.Write.{torrent_bytes, write_answer, write_after};
ghost use Rattle.writer.specs.Steps.{Prepared, MeasuredRight, ForRest};

use numbers::{Answer, Refused};
use sorting::sort::sort;
use writer_lists::form::{RECORD, list_form};
use writer_order::compare::{ByPath, ByRoot};
use writer_order::meet::meets;
use writer_order::number::{check_content, root_number};
use writer_order::places::place;
use writer_output::whole::{MOST_FILES, info_size, put_info, put_rest, rest_size, too_many};

// The size of the torrent, or the refusal of its content: from the positions by root and layer, then from those in tree order, which `at` is
// left with.
fn measure(
    list: &[u8],
    text: &[u8],
    plen: usize,
    name: &[u8],
    at: &mut [u32],
    room: &mut [u32],
) -> Result<usize, Refused>
    requires { Prepared list.now text.now at.old room.old }
    ensures { MeasuredRight list.now text.now plen name.now at.new result }
{
    place(at);
    sort(&ByRoot { list, text }, at, room);
    let rest = rest_size(list, text, at);
    let roots = root_number(list, text, plen, at, rest);
    sort(&ByPath { list, text }, at, room);
    let info = info_size(list, text, at, plen, name);
    let meet = meets(list, text, at);
    let size = info + rest;
    check_content(list, text, plen, size, meet, roots)?;
    Ok(size)
}

// `at`, which has the positions in tree order, gets those that `piece layers` is written of. Without layers the order does not matter: the
// second part of the torrent has two bytes then.
fn order_for_rest(list: &[u8], text: &[u8], at: &mut [u32], room: &mut [u32])
    requires { Prepared list.now text.now at.old room.old × InOrder item_before list.now text.now at.old }
    ensures { ForRest list.now text.now at.new }
{
    if rest_size(list, text, at) == 2 {
        return;
    }
    sort(&ByRoot { list, text }, at, room);
}

// Writes the torrent; `at` has the positions in tree order.
fn put_torrent(
    list: &[u8],
    text: &[u8],
    plen: usize,
    name: &[u8],
    at: &mut [u32],
    room: &mut [u32],
    out: &mut [u8],
)
    requires { Prepared list.now text.now at.old room.old × InOrder item_before list.now text.now at.old
        × (content_number plen name.now (content_of list.now text.now) ≡ 0)
        × (length (torrent_bytes list.now text.now plen name.now) ≤ length out.old) }
    ensures { out.new
        ≡ pasted out.old 0 (torrent_bytes list.now text.now plen name.now) }
{
    let behind = put_info(out, 0, list, text, at, plen, name);
    order_for_rest(list, text, at, room);
    put_rest(out, behind, list, text, at);
}

// What `write` answers and leaves, with work space for the list's own positions.
fn write_in(
    list: &[u8],
    text: &[u8],
    plen: usize,
    name: &[u8],
    at: &mut [u32],
    room: &mut [u32],
    out: &mut [u8],
) -> Result<u64, Refused>
    requires { Prepared list.now text.now at.old room.old }
    ensures { (answer_of result ≡ write_answer list.now text.now plen name.now out.old)
        × (out.new ≡ write_after list.now text.now plen name.now out.old) }
{
    let size = measure(list, text, plen, name, at, room)?;
    if out.len() < size {
        return Err(Refused::NoRoom);
    }
    put_torrent(list, text, plen, name, at, room, out);
    Ok(size as u64)
}

// What `write` answers and leaves, with work space for as many positions as a torrent has files at most.
fn write_with(
    list: &[u8],
    text: &[u8],
    plen: usize,
    name: &[u8],
    at: &mut [u32],
    room: &mut [u32],
    out: &mut [u8],
) -> Result<u64, Refused>
    requires { (length at.old ≡ most_files) × (length room.old ≡ most_files) }
    ensures { (answer_of result ≡ write_answer list.now text.now plen name.now out.old)
        × (out.new ≡ write_after list.now text.now plen name.now out.old) }
{
    if !list_form(list, text) {
        return Err(Refused::WrongSize);
    }
    let n = list.len() / RECORD;
    if too_many(n) {
        return Err(Refused::TorrentTooLarge);
    }
    write_in(list, text, plen, name, &mut at[0..n], &mut room[0..n], out)
}

// 0 and the size of the torrent, which is then at the start of `out`; or 4, 19, 21 to 28, or 11 if `out` is too short for it.
pub fn write(list: &[u8], text: &[u8], plen: usize, name: &[u8], out: &mut [u8]) -> Answer
    ensures { (result ≡ write_answer list.now text.now plen name.now out.old)
        × (out.new ≡ write_after list.now text.now plen name.now out.old) }
{
    let mut at = [0u32; MOST_FILES];
    let mut room = [0u32; MOST_FILES];
    Answer::from(write_with(list, text, plen, name, &mut at, &mut room, out))
}
