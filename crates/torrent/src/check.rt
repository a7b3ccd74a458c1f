// The numbers 19 to 28 and 31 of a torrent, the lowest; and where its parts are, if it gets 0. `tree` is the part of the torrent that `file tree`
// is, `layers` the part that `piece layers` is.
ghost use Rattle.std.specs.Prelude.{◌≡◌, true, ◌≤◌, length};
ghost use Rattle.limits.specs.Limits.{largest_torrent};
ghost use Rattle.tree.specs.Geometry.{is_piece_length};
ghost use Rattle.filetree.specs.Count.{most_roots};
ghost use Rattle.layers.specs.Layers.{LayersOpen};
ghost use Rattle.torrent.specs.Torrent.{as_judged, judged_of, as_checked, v2_checked_of, checked_of};

use crate::both::halves_fit;
use filetree::count::{Counted, MOST_ROOTS, count_files};
use layers::{index, judge_layers};
use metainfo::{Keys, read_keys};
use numbers::Refused;
use sorting::distinct::once_each;
use twins::compare;

// How many files there are, and how many layers.
#[derive(Clone, Copy)]
pub struct Judged {
    pub files: usize,
    pub layered: usize,
}

// The keys, and the same counts.
#[derive(Clone, Copy)]
pub struct Checked {
    pub keys: Keys,
    pub files: usize,
    pub layered: usize,
}

// The counts, or 25 to 28; `roots` and `room` are work space.
fn judge_in(
    tree: &[u8],
    layers: &[u8],
    plen: usize,
    roots: &mut [u32],
    room: &mut [u32],
) -> Result<Judged, Refused>
    requires { (length tree.now ≤ largest_torrent) × (is_piece_length plen ≡ true) × LayersOpen layers.now × (length roots.old ≡ most_roots) × (length room.old ≡ most_roots) }
    ensures { as_judged result ≡ judged_of tree.now layers.now plen }
{
    match count_files(tree, roots) {
        None => Err(Refused::WrongTree),
        Some(Counted { next: _, tally }) => {
            let files = tally.files;
            let full = tally.roots;
            let count = once_each(tree, roots, room, full);
            match compare(tree, roots, count, room, plen) {
                None => Err(Refused::TwoLengths),
                Some(layered) => {
                    if index(layers, roots, layered) {
                        judge_layers(tree, layers, roots, layered, plen)?;
                        return Ok(Judged { files, layered });
                    }
                    Err(Refused::LayersAmiss)
                }
            }
        }
    }
}

// The counts, or 25 to 28, in work space of its own: a torrent has no more than MOST_ROOTS files that are not empty.
fn judge(tree: &[u8], layers: &[u8], plen: usize) -> Result<Judged, Refused>
    requires { (length tree.now ≤ largest_torrent) × (is_piece_length plen ≡ true) × LayersOpen layers.now }
    ensures { as_judged result ≡ judged_of tree.now layers.now plen }
{
    let mut roots = [0u32; MOST_ROOTS];
    let mut room = [0u32; MOST_ROOTS];
    judge_in(tree, layers, plen, &mut roots, &mut room)
}

// What any bytes are by the v2 half alone, or 19 to 28.
fn check_v2(torrent: &[u8]) -> Result<Checked, Refused>
    ensures { as_checked result ≡ v2_checked_of torrent.now }
{
    let keys = read_keys(torrent)?;
    let plen = keys.plen;
    let tree = keys.tree.start;
    let tree_end = keys.tree.end;
    let layers = keys.layers.start;
    let layers_end = keys.layers.end;
    let judged = judge(&torrent[tree..tree_end], &torrent[layers..layers_end], plen)?;
    Ok(Checked {
        keys,
        files: judged.files,
        layered: judged.layered,
    })
}

// What any bytes are, or 19 to 28 or 31. What the v2 half is judged with is gone before the halves are held against each other.
pub fn check(torrent: &[u8]) -> Result<Checked, Refused>
    ensures { as_checked result ≡ checked_of torrent.now }
{
    let c = check_v2(torrent)?;
    let plen = c.keys.plen;
    let info = c.keys.info.start;
    let info_end = c.keys.info.end;
    let tree = c.keys.tree.start;
    let tree_end = c.keys.tree.end;
    let files = c.files;
    if halves_fit(
        &torrent[info..info_end],
        &torrent[tree..tree_end],
        plen,
        files,
    ) {
        return Ok(c);
    }
    Err(Refused::HalvesDiffer)
}
