// All files of a torrent in one list, a record of RECORD bytes for each.
#![tactic(auto)]

pub mod record;

ghost use Rattle.std.specs.Prelude.{◌≡◌, ◌*◌, ◌≤◌};
ghost use Rattle.std.proofs.Math.ListN as L;
ghost use Rattle.octets.specs.Octets.{pasted};
ghost use Rattle.filetree.specs.Tree.{files_in, listed};
ghost use Rattle.filetree.specs.Count.{most_roots};
ghost use Rattle.layers.specs.Layers.{Indexed};
ghost use Rattle.numbers.specs.Refusals.{answer_of};
ghost use Rattle.catalogue.specs.Catalogue.{records_of, record_size, list_answer, list_after};
ghost use Rattle.catalogue.specs.Asks.{parts_with, Listable, SpotRight, Puts};

use crate::record::{Listing, Record, put_record};
use filetree::count::{ELEMENTS, MOST_ROOTS};
use filetree::path::{PATH, set_element};
use filetree::token::{Token, read_token};
use layers::index;
use numbers::{Answer, Refused};
use torrent::check::check;

// The bytes of one record: 56, and 8 for each element that a path may have.
pub const RECORD: usize = 56 + 8 * ELEMENTS;

// A directory of it: its first entry, the levels left below it, and where its first record goes.
#[derive(Clone, Copy)]
pub struct Spot {
    pub list: Listing,
    pub at: usize,
    pub levels: usize,
    pub to: usize,
}

// The position past a directory, and where the next record goes.
#[derive(Clone, Copy)]
pub struct Put {
    pub next: usize,
    pub to: usize,
}

// Writes the records of the files of a directory, one after the other. `path` has the elements of the path to the directory. None if
// something in it is wrong, or there is no room.
fn put_directory(
    tree: &[u8],
    layers: &[u8],
    keys: &[u32],
    path: &mut [usize],
    out: &mut [u8],
    spot: Spot,
) -> Option<Put>
    requires { Indexed layers.now keys.now spot.list.count × SpotRight (L.length tree.now) (L.length layers.now) (L.length out.old) path.old spot }
    ensures { Puts tree.now layers.now spot path.old path.new out.old out.new result }
{
    let list = spot.list;
    let at = spot.at;
    let levels = spot.levels;
    if levels == 0 {
        return None;
    }
    let below = levels - 1;
    let depth = ELEMENTS - levels;
    let mut to = spot.to;
    let mut i = at;
    while i < tree.len() {
        match read_token(tree, i)? {
            Token::Closed => {
                return Some(Put { next: i + 1, to });
            }
            Token::Leaf {
                start,
                end,
                length,
                root,
                next,
            } => {
                if out.len() - to < RECORD {
                    return None; // never: the list has room for all files
                }
                set_element(path, depth, start, end);
                let record = Record {
                    list,
                    length,
                    root,
                    elements: depth + 1,
                    at: to,
                };
                put_record(tree, layers, keys, path, out, record);
                to += RECORD;
                i = next;
            }
            Token::Opened { start, end } => {
                set_element(path, depth, start, end);
                let inside = Spot {
                    list,
                    at: end + 1,
                    levels: below,
                    to,
                };
                let put = put_directory(tree, layers, keys, path, out, inside)?;
                to = put.to;
                i = put.next;
            }
        }
    }
    None
}

// Writes the records of all files of a torrent that gets 0; `keys` is work space, for where the keys of `piece layers` stand. They are as
// many as they should be: `check` has seen it, so that `index` need not be asked again.
fn list_in(tree: &[u8], layers: &[u8], keys: &mut [u32], out: &mut [u8], list: Listing)
    requires { Listable tree.now layers.now list × (L.length keys.old ≡ most_roots) × (record_size * L.length (listed (files_in tree.now)) ≤ L.length out.old) }
    ensures { out.new ≡ pasted out.old 0 (records_of (parts_with tree.now layers.now list) (listed (files_in tree.now))) }
{
    let mut path = [0usize; PATH];
    let spot = Spot {
        list,
        at: 1,
        levels: ELEMENTS,
        to: 0,
    };
    index(layers, keys, list.count);
    put_directory(tree, layers, keys, &mut path, out, spot);
}

fn listed(torrent: &[u8], out: &mut [u8]) -> Result<u64, Refused>
    ensures answer { answer_of result ≡ list_answer torrent.now out.old }
    ensures left { out.new ≡ list_after torrent.now out.old }
{
    let c = check(torrent)?;
    let tree = c.keys.tree.start;
    let tree_end = c.keys.tree.end;
    let layers = c.keys.layers.start;
    let layers_end = c.keys.layers.end;
    let size = RECORD * c.files;
    if out.len() < size {
        return Err(Refused::NoRoom);
    }
    let list = Listing {
        tree,
        layers,
        plen: c.keys.plen,
        count: c.layered,
    };
    let mut keys = [0u32; MOST_ROOTS];
    list_in(
        &torrent[tree..tree_end],
        &torrent[layers..layers_end],
        &mut keys,
        out,
        list,
    );
    Ok(size as u64)
}

// 0 and the size of the list, which is then at the start of `out`; or 19 to 28 or 31, or 11 if `out` is too short for it.
pub fn list(torrent: &[u8], out: &mut [u8]) -> Answer
    ensures { (result ≡ list_answer torrent.now out.old) × (out.new ≡ list_after torrent.now out.old) }
{
    Answer::from(listed(torrent, out))
}
