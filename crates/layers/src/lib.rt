// The piece layers of a torrent: where their keys stand, a layer found by its root, and whether it is what its file needs. `layers` is the
// part of the torrent that the value of `piece layers` is, `tree` the part that `file tree` is.
#![tactic(auto)]

ghost use Rattle.std.specs.Prelude.{◌≡◌, true, ◌&&◌, ◌+◌, ◌*◌, ◌-◌, ◌≤◌, ◌<◌, take, eqb};
ghost use Rattle.std.proofs.Math.ListN as L;
ghost use Rattle.limits.specs.Limits.{longest_file, largest_torrent};
ghost use Rattle.octets.specs.Octets.{cut};
ghost use Rattle.tree.specs.Geometry.{is_piece_length, piece_layer, has_layer};
ghost use Rattle.tree.specs.Values.{pad_value};
ghost use Rattle.numbers.specs.Refusals.{code_of};
ghost use Rattle.filetree.specs.Tree.{files_in, right, listed};
ghost use Rattle.numbers.specs.Refusals.{code_of};
ghost use Rattle.layers.specs.Layers.{layer_keys, keys_wide, Indexed, Inside, layer_at, of_layer, number_by_layer, lower, worst, Judges, number_if};

use bencode::part::Part;
use bencode::parts::{Entry, read_entry};
use bencode::scalar::read_string;
use filetree::count::ELEMENTS;
use filetree::token::{Token, read_token};
use heaps::gives_root;
use numbers::Refused;
use sorting::halving::search;
use tree::geometry::{has_layer, piece_count, piece_layer};
use tree::values::pad_value;

// A pieces root, and so each key of `piece layers`, has 32 bytes.
const ROOT: usize = 32;

// Whether the dictionary `layers` has `most` keys, each of 32 bytes; if so, where they stand is left in `keys`, in order.
pub fn index(layers: &[u8], keys: &mut [u32], most: usize) -> bool
    requires { (L.length layers.now ≤ largest_torrent) × (most ≤ L.length keys.old) }
    ensures { (result ≡ (keys_wide layers.now && eqb (L.length (layer_keys layers.now)) most)) × (result ≡ true → take most keys.new ≡ layer_keys layers.now) }
{
    let mut i = 1; // the next position comes from the bytes
    let mut n = 0;
    while let Some(Entry { start, value, end }) = read_entry(layers, i) {
        if value - start != ROOT {
            return false;
        }
        if n >= most {
            return false;
        }
        keys[n] = start as u32;
        n += 1;
        i = end;
    }
    n == most
}

// The string that the dictionary `layers` has for a root.
pub fn find_layer(layers: &[u8], keys: &[u32], count: usize, root: &[u8]) -> Option<Part>
    requires { Indexed layers.now keys.now count }
    ensures { result ≡ layer_at layers.now root.now }
{
    let i = search(layers, keys, count, root);
    if i < count {
        let key = keys[i] as usize;
        return read_string(layers, key + ROOT);
    }
    None
}

// Whether the layer of a file of `length` bytes is what it needs: else 27 or 28.
fn of_layer(
    layers: &[u8],
    pad: [u8; 32],
    plen: usize,
    length: usize,
    root: &[u8],
    layer: Option<Part>,
) -> Result<(), Refused>
    requires { (is_piece_length plen ≡ true) × (has_layer length plen ≡ true) × (length ≤ longest_file) × (L.length root.now ≡ 32) × Inside (L.length layers.now) layer × (pad ≡ pad_value (piece_layer plen)) }
    ensures { code_of result ≡ of_layer layers.now plen length root.now layer }
{
    match layer {
        None => Err(Refused::LayersAmiss),
        Some(Part { start, end }) => {
            let pieces = piece_count(length, plen);
            if end - start == 32 * pieces {
                if gives_root(&layers[start..end], pad, plen, length, root) {
                    return Ok(());
                }
                return Err(Refused::LayerDiffers);
            }
            Err(Refused::LayersAmiss)
        }
    }
}

// What the layers are judged by: how many keys there are, the piece length, the padding value of the piece layer; and the worst so far.
#[derive(Clone, Copy)]
pub struct Judging {
    pub count: usize,
    pub plen: usize,
    pub pad: [u8; 32],
    pub worst: Option<Refused>,
}

// The position past a directory, and the worst of the files up to there.
#[derive(Clone, Copy)]
pub struct Numbered {
    pub next: usize,
    pub worst: Option<Refused>,
}

// Whether a file of `length` bytes with its root at `root` has the layer that it needs: else 27 or 28. It needs none if it is not longer
// than the piece length.
fn number_by_layer(
    tree: &[u8],
    layers: &[u8],
    keys: &[u32],
    job: Judging,
    length: usize,
    root: usize,
) -> Result<(), Refused>
    requires { Indexed layers.now keys.now job.count × (is_piece_length job.plen ≡ true) × (length ≤ longest_file) × ((length ≡ 0 → ⊥) → root + 32 ≤ L.length tree.now) × (job.pad ≡ pad_value (piece_layer job.plen)) }
    ensures { code_of result ≡ number_by_layer layers.now job.plen length (cut tree.now root 32) }
{
    let plen = job.plen;
    let pad = job.pad;
    if has_layer(length, plen) {
        let past = root + ROOT;
        let layer = find_layer(layers, keys, job.count, &tree[root..past]);
        return of_layer(layers, pad, plen, length, &tree[root..past], layer);
    }
    Ok(())
}

// The lower of 27 and 28, of what was judged so far and of a file.
fn lower_of(worst: Option<Refused>, here: Result<(), Refused>) -> Option<Refused>
    ensures { number_if result ≡ lower (number_if worst) (code_of here) }
{
    match worst {
        None => here.err(),
        Some(why) => match why {
            Refused::LayersAmiss => worst,
            _ => here.err().or(worst),
        },
    }
}

// The worst of the files of a directory, from its first entry on, with so many levels left below it. None if something in it is wrong.
fn judge_directory(
    tree: &[u8],
    at: usize,
    levels: usize,
    layers: &[u8],
    keys: &[u32],
    job: Judging,
) -> Option<Numbered>
    requires { Indexed layers.now keys.now job.count × (is_piece_length job.plen ≡ true) × (job.pad ≡ pad_value (piece_layer job.plen)) }
    ensures { Judges tree.now at levels layers.now job.plen (number_if job.worst) result }
{
    if levels == 0 {
        return None;
    }
    let below = levels - 1;
    let count = job.count;
    let plen = job.plen;
    let pad = job.pad;
    let mut worst = job.worst;
    let mut i = at;
    while i < tree.len() {
        match read_token(tree, i)? {
            Token::Closed => {
                return Some(Numbered { next: i + 1, worst });
            }
            Token::Leaf {
                start: _,
                end: _,
                length,
                root,
                next,
            } => {
                let here = Judging {
                    count,
                    plen,
                    pad,
                    worst,
                };
                let judged = number_by_layer(tree, layers, keys, here, length, root);
                worst = lower_of(worst, judged);
                i = next;
            }
            Token::Opened { start: _, end } => {
                let here = Judging {
                    count,
                    plen,
                    pad,
                    worst,
                };
                let inside = judge_directory(tree, end + 1, below, layers, keys, here)?;
                worst = inside.worst;
                i = inside.next;
            }
        }
    }
    None
}

// Whether all files of `tree` have the layers that they need: else 27 or 28, the lowest.
pub fn judge_layers(
    tree: &[u8],
    layers: &[u8],
    keys: &[u32],
    count: usize,
    plen: usize,
) -> Result<(), Refused>
    requires { Indexed layers.now keys.now count × (is_piece_length plen ≡ true) × (right (files_in tree.now) ≡ true) }
    ensures { code_of result ≡ worst tree.now layers.now plen 0 (listed (files_in tree.now)) }
{
    let pad = pad_value(piece_layer(plen));
    let job = Judging {
        count,
        plen,
        pad,
        worst: None,
    };
    match judge_directory(tree, 1, ELEMENTS, layers, keys, job) {
        Some(all) => match all.worst {
            Some(why) => Err(why),
            None => Ok(()),
        },
        None => Ok(()), // never: the tree is right
    }
}
