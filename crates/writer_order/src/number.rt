// The number of a list's content.
ghost use Rattle.std.specs.Prelude.{◌≡◌, true, List, ℕ, ◌≤◌, length};
ghost use Rattle.limits.specs.Limits.{largest_torrent};
ghost use Rattle.numbers.specs.Refusals.{code_of};
ghost use Rattle.tree.specs.Geometry.{is_piece_length};
ghost use Rattle.bencode.specs.Grammar.{dictionary, encode};
ghost use Rattle.writer_meaning.specs.Content.{torrent_of};
ghost use Rattle.writer_meaning.specs.Number as P;
ghost use Rattle.writer_meaning.specs.Number.{content_number};
ghost use Rattle.writer_lists.specs.Lists.{list_form, content_of};
ghost use Rattle.writer_order.specs.Order.{root_before, InOrder};
ghost use Rattle.writer_order.specs.Roots.{root_number, number_or};

use crate::clash::{layers_clash, lengths_clash};
use crate::items::{misfits, one_fails, too_deep, wrong_item};
use numbers::Refused;
use tree::geometry::is_piece_length;

// The lowest of 26 to 28 that holds of a list's content, if one does, where `at` has the records' positions by root and `rest` is the size of the
// layers as they are written. Where they do not go into a torrent they are not hashed: a lower number holds.
pub fn root_number(
    list: &[u8],
    text: &[u8],
    plen: usize,
    at: &[u32],
    rest: usize,
) -> Result<(), Refused>
    requires { (list_form list.now text.now ≡ true) × InOrder root_before list.now text.now at.now }
    ensures { rest ≤ largest_torrent → is_piece_length plen ≡ true
        → code_of result ≡ root_number plen (content_of list.now text.now) }
{
    if limits::LARGEST_TORRENT < rest {
        return Ok(());
    }
    if !is_piece_length(plen) {
        return Ok(());
    }
    if lengths_clash(list, text, at) {
        return Err(Refused::TwoLengths);
    }
    if one_fails(list, text, |p| misfits(list, text, plen, p)) {
        return Err(Refused::LayersAmiss);
    }
    if layers_clash(list, text, plen, at) {
        return Err(Refused::LayerDiffers);
    }
    Ok(())
}

// The lowest of 19, 21, 24 and 25 that holds of a list's content, if one does, where `size` is the size of its torrent with some name, and `meets`
// says whether two files meet: with the lowest of 26 to 28 behind it, it is the content's number.
fn alone(list: &[u8], text: &[u8], plen: usize, size: usize, meets: bool) -> Result<(), Refused>
    requires { (list_form list.now text.now ≡ true) × (meets ≡ P.meet (content_of list.now text.now)) }
    ensures { (name : List ℕ) (roots : ℕ)
        → size ≡ length (encode (dictionary (torrent_of plen name (content_of list.now text.now))))
        → (size ≤ largest_torrent → is_piece_length plen ≡ true → roots ≡ root_number plen (content_of list.now text.now))
        → number_or result roots ≡ content_number plen name (content_of list.now text.now) }
{
    if limits::LARGEST_TORRENT < size {
        return Err(Refused::TorrentTooLarge);
    }
    if one_fails(list, text, |p| too_deep(list, text, p)) {
        return Err(Refused::NestedTooDeeply);
    }
    if !is_piece_length(plen) {
        return Err(Refused::PieceLengthOutOfRange);
    }
    if list.len() == 0 {
        return Err(Refused::WrongTree);
    }
    if meets {
        return Err(Refused::WrongTree);
    }
    if one_fails(list, text, |p| wrong_item(list, text, p)) {
        return Err(Refused::WrongTree);
    }
    Ok(())
}

// The lowest number that holds of a list's content, or 0, where `size` is the size of its torrent with some name, `meets` says whether two
// files meet, and `roots` is the lowest of 26 to 28, or 0. A number as C has it: with `Refused` for `roots` it would ask more of its callers.
pub fn content_number(
    list: &[u8],
    text: &[u8],
    plen: usize,
    size: usize,
    meets: bool,
    roots: u32,
) -> u32
    requires { (list_form list.now text.now ≡ true) × (meets ≡ P.meet (content_of list.now text.now))
        × (size ≤ largest_torrent → is_piece_length plen ≡ true → roots ≡ root_number plen (content_of list.now text.now)) }
    ensures { (name : List ℕ)
        → size ≡ length (encode (dictionary (torrent_of plen name (content_of list.now text.now))))
        → result ≡ content_number plen name (content_of list.now text.now) }
{
    match alone(list, text, plen, size, meets) {
        Ok(()) => roots,
        Err(why) => u32::from(why),
    }
}

// Whether a list's content may be a torrent's: else the lowest number that holds of it, where `size` is the size of its torrent with some name,
// `meets` says whether two files meet, and `roots` has the lowest of 26 to 28.
pub fn check_content(
    list: &[u8],
    text: &[u8],
    plen: usize,
    size: usize,
    meets: bool,
    roots: Result<(), Refused>,
) -> Result<(), Refused>
    requires { (list_form list.now text.now ≡ true) × (meets ≡ P.meet (content_of list.now text.now))
        × (size ≤ largest_torrent → is_piece_length plen ≡ true → code_of roots ≡ root_number plen (content_of list.now text.now)) }
    ensures { (name : List ℕ)
        → size ≡ length (encode (dictionary (torrent_of plen name (content_of list.now text.now))))
        → code_of result ≡ content_number plen name (content_of list.now text.now) }
{
    alone(list, text, plen, size, meets)?;
    roots
}
