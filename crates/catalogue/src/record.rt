// The record of one file: 56 bytes for its length, its root, its layer's part and how many path elements it has; then a place for each
// element that a path may have. Numbers are written with the most significant byte first.
ghost use Rattle.std.specs.Prelude.{◌≡◌, ◌+◌, ◌*◌, ◌≤◌, ◌<◌};
ghost use Rattle.std.proofs.Math.ListN as L;
ghost use Rattle.limits.specs.Limits.{largest_torrent};
ghost use Rattle.octets.specs.Octets.{cut, pasted};
ghost use Rattle.filetree.specs.Tree.{max_elements};
ghost use Rattle.layers.specs.Layers.{Indexed, layer_string, start_of, size_of};
ghost use Rattle.torrent.specs.Find.{PathGiven};
ghost use Rattle.catalogue.specs.Catalogue.{part_bytes, head_bytes};
ghost use Rattle.catalogue.specs.Asks.{array_element, array_elements, record_from, Forward, RecordRight};

use bencode::part::Part;
use filetree::count::ELEMENTS;
use layers::find_layer;
use octets::{put_hash, put_number};
use torrent::one::root_of;
use tree::geometry::has_layer;

// Where `file tree` and `piece layers` begin in the torrent, the piece length, and how many keys `piece layers` has.
#[derive(Clone, Copy)]
pub struct Listing {
    pub tree: usize,
    pub layers: usize,
    pub plen: usize,
    pub count: usize,
}

// A file of it: its length, its root's position, how many path elements it has; and where its record goes.
#[derive(Clone, Copy)]
pub struct Record {
    pub list: Listing,
    pub length: usize,
    pub root: usize,
    pub elements: usize,
    pub at: usize,
}

// Writes where a part of the torrent begins, and its size.
fn put_part(out: &mut [u8], at: usize, start: usize, size: usize)
    requires { at + 8 ≤ L.length out.old }
    ensures { out.new ≡ pasted out.old at (part_bytes start size) }
{
    put_number(out, at, 4, start);
    put_number(out, at + 4, 4, size);
}

// Writes element k of a path of n elements, of a tree that begins at `base`, or zeros if there is none.
fn put_element(out: &mut [u8], at: usize, base: usize, path: &[usize], n: usize, k: usize)
    requires { (at + 8 ≤ L.length out.old) × (k < max_elements) × PathGiven path.now n base }
    ensures { out.new ≡ pasted out.old at (array_element base path.now n k) }
{
    if k < n {
        let i = 2 * k;
        let start = path[i];
        let end = path[i + 1];
        put_part(out, at, base + start, end - start);
        return;
    }
    put_number(out, at, 8, 0);
}

// Writes the places for the n elements of a path.
fn put_elements(out: &mut [u8], at: usize, base: usize, path: &[usize], n: usize)
    requires { (at + 8 * max_elements ≤ L.length out.old) × PathGiven path.now n base }
    ensures { out.new ≡ pasted out.old at (array_elements base path.now n max_elements) }
{
    for k in 0..ELEMENTS {
        put_element(out, at + 8 * k, base, path, n, k);
    }
}

// Writes where a layer begins, of `piece layers` that begin at `base`, and its size; zeros if there is none.
fn put_layer(out: &mut [u8], at: usize, base: usize, layer: Option<Part>)
    requires { (at + 8 ≤ L.length out.old) × Forward base layer }
    ensures { out.new ≡ pasted out.old at (part_bytes (start_of base layer) (size_of layer)) }
{
    match layer {
        None => put_part(out, at, 0, 0),
        Some(Part { start, end }) => put_part(out, at, base + start, end - start),
    }
}

// Writes a record's first 56 bytes.
fn put_head(out: &mut [u8], file: Record, root: [u8; 32], layer: Option<Part>)
    requires { (file.at + 56 ≤ L.length out.old) × Forward file.list.layers layer }
    ensures { out.new ≡ pasted out.old file.at (head_bytes file.list.layers file.length root layer file.elements) }
{
    let at = file.at;
    let length = file.length;
    let elements = file.elements;
    let base = file.list.layers;
    put_number(out, at, 8, length);
    put_hash(out, at + 8, root);
    put_layer(out, at + 40, base, layer);
    put_number(out, at + 48, 4, elements);
    put_number(out, at + 52, 4, 0);
}

// The layer of a file; none if it is not longer than the piece length.
fn layer_of(
    tree: &[u8],
    layers: &[u8],
    keys: &[u32],
    list: Listing,
    length: usize,
    root: usize,
) -> Option<Part>
    requires { Indexed layers.now keys.now list.count × ((length ≡ 0 → ⊥) → root + 32 ≤ L.length tree.now) × (list.layers + L.length layers.now ≤ largest_torrent) }
    ensures { (result ≡ layer_string layers.now list.plen length (cut tree.now root 32)) × Forward list.layers result }
{
    if has_layer(length, list.plen) {
        return find_layer(layers, keys, list.count, &tree[root..root + 32]);
    }
    None
}

// Writes the record of a file.
pub fn put_record(
    files: &[u8],
    layers: &[u8],
    keys: &[u32],
    path: &[usize],
    out: &mut [u8],
    file: Record,
)
    requires { Indexed layers.now keys.now file.list.count × RecordRight (L.length files.now) (L.length layers.now) (L.length out.old) path.now file }
    ensures { out.new ≡ pasted out.old file.at (record_from files.now layers.now path.now file) }
{
    let list = file.list;
    let base = list.tree;
    let at = file.at;
    let elements = file.elements;
    let length = file.length;
    let root = file.root;
    let hash = root_of(files, length, root);
    let layer = layer_of(files, layers, keys, list, length, root);
    put_head(out, file, hash, layer);
    put_elements(out, at + 56, base, path, elements);
}
