// A store saved: counted first, then written.
ghost use Rattle.std.specs.Prelude.{◌≡◌, true, cond, ◌∷◌, ◌+◌, ◌-◌, ◌*◌, ◌^◌, ◌≤◌, ◌<◌, length};
ghost use Rattle.limits.specs.Limits.{tallest_tree};
ghost use Rattle.octets.specs.Octets.{be, pasted};
ghost use Rattle.numbers.specs.Refusals.{answer_of};
ghost use Rattle.tree.specs.Geometry.{node_number};
ghost use Rattle.cells.specs.Cells.{Room, held_at};
ghost use Rattle.store.specs.Store.{positions, usable, blocks_of, height_of};
ghost use Rattle.marks.specs.Marks.{marks_start, marked_at};
ghost use Rattle.saved.specs.Form as F;
ghost use Rattle.saved.specs.Save as S;

use marks::marks_start;
use numbers::{Answer, Refused};
use octets::{put_hash, put_number};
use store::{blocks_of, facts_root, file_length, height_of, is_usable, piece_length_of};
use tree::geometry::node_number;

// One more, or none.
fn one_more(n: usize, yes: bool) -> usize
    requires { n + 1 < 2 ^ 64 }
    ensures { result ≡ cond yes (n + 1) n }
{
    n + usize::from(yes)
}

// Whether position i of `layer` is held.
fn held_in(store: &[u8], height: usize, layer: usize, i: usize) -> bool
    requires { (height ≤ tallest_tree) × (layer ≤ height) × (i < 2 ^ (height - layer)) × Room (positions height) store.now }
    ensures { result ≡ held_at store.now (node_number height layer i) }
{
    let n = node_number(height, layer, i);
    cells::held(store, n)
}

// How many of the first w positions of `layer` are held.
fn count_layer(store: &[u8], height: usize, layer: usize, w: usize) -> usize
    requires { (height ≤ tallest_tree) × (layer ≤ height) × (w ≤ 2 ^ (height - layer)) × Room (positions height) store.now }
    ensures { (result ≡ length (S.layer_held store.now height layer w)) × (result ≤ w) }
{
    let mut n = 0;
    for i in 0..w {
        let held = held_in(store, height, layer, i);
        n = one_more(n, held);
    }
    n
}

// Writes the record of a position.
fn put_record(out: &mut [u8], at: usize, l: usize, i: usize, hash: [u8; 32])
    requires { at + 41 ≤ length out.old }
    ensures { out.new ≡ pasted out.old at (F.place_bytes (record { layer = l; index = i; hash = hash })) }
{
    out[at] = 2;
    put_number(out, at + 1, 4, l);
    put_number(out, at + 5, 4, i);
    put_hash(out, at + 9, hash);
}

// Writes the record of position i of `layer` if it is held, and gives the place behind.
fn put_held(store: &[u8], out: &mut [u8], at: usize, height: usize, layer: usize, i: usize) -> usize
    requires { (height ≤ tallest_tree) × (layer ≤ height) × (i < 2 ^ (height - layer)) × Room (positions height) store.now × (at + 41 * length (S.place_held store.now height layer i) ≤ length out.old) }
    ensures { (result ≡ at + 41 * length (S.place_held store.now height layer i)) × (out.new ≡ pasted out.old at (F.places_bytes (S.place_held store.now height layer i))) }
{
    let held = held_in(store, height, layer, i);
    if !held {
        return at;
    }
    let n = node_number(height, layer, i);
    let hash = cells::hash_of(store, n);
    put_record(out, at, layer, i, hash);
    at + 41
}

// Writes the records of the held ones among the first w positions of `layer`, and gives the place behind.
fn put_layer(
    store: &[u8],
    out: &mut [u8],
    at: usize,
    height: usize,
    layer: usize,
    w: usize,
) -> usize
    requires { (height ≤ tallest_tree) × (layer ≤ height) × (w ≤ 2 ^ (height - layer)) × Room (positions height) store.now × (at + 41 * length (S.layer_held store.now height layer w) ≤ length out.old) }
    ensures { (result ≡ at + 41 * length (S.layer_held store.now height layer w)) × (out.new ≡ pasted out.old at (F.places_bytes (S.layer_held store.now height layer w))) }
{
    let mut here = at;
    for i in 0..w {
        here = put_held(store, out, here, height, layer, i);
    }
    here
}

// How many positions of the layers below `upto` are held.
fn count_layers(store: &[u8], height: usize, upto: usize) -> usize
    requires { (height ≤ tallest_tree) × (upto ≤ height + 1) × Room (positions height) store.now }
    ensures { (result ≡ length (S.held_below store.now height upto)) × (result ≤ upto * 2 ^ tallest_tree) }
{
    let mut n = 0;
    for l in 0..upto {
        let d = height - l;
        let w = 1 << d;
        let more = count_layer(store, height, l, w);
        n += more;
    }
    n
}

// Writes the records of the held positions of the layers below `upto`, and gives the place behind.
fn put_layers(store: &[u8], out: &mut [u8], at: usize, height: usize, upto: usize) -> usize
    requires { (height ≤ tallest_tree) × (upto ≤ height + 1) × Room (positions height) store.now × (at + 41 * length (S.held_below store.now height upto) ≤ length out.old) }
    ensures { (result ≡ at + 41 * length (S.held_below store.now height upto)) × (out.new ≡ pasted out.old at (F.places_bytes (S.held_below store.now height upto))) }
{
    let mut here = at;
    for l in 0..upto {
        let d = height - l;
        let w = 1 << d;
        here = put_layer(store, out, here, height, l, w);
    }
    here
}

// Whether a block is marked, where the marks begin at `start`.
fn mark_at(store: &[u8], start: usize, i: usize) -> bool
    requires { (usable store.now ≡ true) × (start ≡ marks_start store.now) × (i < 2 ^ height_of store.now) }
    ensures { result ≡ marked_at store.now i }
{
    store[start + i] == 1
}

// How many of the first n blocks are marked.
fn count_marks(store: &[u8], n: usize) -> usize
    requires { (usable store.now ≡ true) × (n ≤ 2 ^ height_of store.now) }
    ensures { (result ≡ length (S.marked_below store.now n)) × (result ≤ n) }
{
    let start = marks_start(store);
    let mut m = 0;
    for i in 0..n {
        let set = mark_at(store, start, i);
        m = one_more(m, set);
    }
    m
}

// Writes a kind and a number of four bytes: the record of a mark, and the end.
fn put_short(out: &mut [u8], at: usize, kind: u8, x: usize)
    requires { at + 5 ≤ length out.old }
    ensures { out.new ≡ pasted out.old at (kind ∷ be 4 x) }
{
    out[at] = kind;
    put_number(out, at + 1, 4, x);
}

// Writes the record of block i if it is marked, and gives the place behind.
fn put_mark(store: &[u8], start: usize, out: &mut [u8], at: usize, i: usize) -> usize
    requires { (usable store.now ≡ true) × (start ≡ marks_start store.now) × (i < 2 ^ height_of store.now) × (at + 5 * length (S.block_marked store.now i) ≤ length out.old) }
    ensures { (result ≡ at + 5 * length (S.block_marked store.now i)) × (out.new ≡ pasted out.old at (F.marks_bytes (S.block_marked store.now i))) }
{
    let set = mark_at(store, start, i);
    if !set {
        return at;
    }
    put_short(out, at, 3, i);
    at + 5
}

// Writes the records of the marked ones among the first n blocks, and gives the place behind.
fn put_marked(store: &[u8], out: &mut [u8], at: usize, n: usize) -> usize
    requires { (usable store.now ≡ true) × (n ≤ 2 ^ height_of store.now) × (at + 5 * length (S.marked_below store.now n) ≤ length out.old) }
    ensures { (result ≡ at + 5 * length (S.marked_below store.now n)) × (out.new ≡ pasted out.old at (F.marks_bytes (S.marked_below store.now n))) }
{
    let start = marks_start(store);
    let mut here = at;
    for i in 0..n {
        here = put_mark(store, start, out, here, i);
    }
    here
}

// Writes the opening record at the front of the output.
fn put_opening(out: &mut [u8], n: usize, plen: usize, root: [u8; 32])
    requires { 45 ≤ length out.old }
    ensures { out.new ≡ pasted out.old 0 (F.opening_bytes n plen root) }
{
    out[0] = 1;
    put_number(out, 1, 8, n);
    put_number(out, 9, 4, plen);
    put_hash(out, 13, root);
}

// Writes all records: the opening, the held positions, the marked blocks, the end.
fn put_all(store: &[u8], out: &mut [u8], m: usize)
    requires { (usable store.now ≡ true) × (m ≡ length (S.marked_below store.now (blocks_of store.now))) × (length (F.saved_bytes (S.saved_of store.now)) ≤ length out.old) }
    ensures { out.new ≡ pasted out.old 0 (F.saved_bytes (S.saved_of store.now)) }
{
    let n = file_length(store);
    let plen = piece_length_of(store);
    let root = facts_root(store);
    put_opening(out, n, plen, root);
    let h = height_of(store);
    let behind = put_layers(store, out, 45, h, h + 1);
    let c = blocks_of(store);
    let end = put_marked(store, out, behind, c);
    put_short(out, end, 4, m);
}

fn written(store: &[u8], out: &mut [u8]) -> Result<u64, Refused>
    ensures answer { answer_of result ≡ S.save_answer store.now out.old }
    ensures left { out.new ≡ S.save_after store.now out.old }
{
    if !is_usable(store) {
        return Err(Refused::Unusable);
    }
    let h = height_of(store);
    let p = count_layers(store, h, h + 1);
    let c = blocks_of(store);
    let m = count_marks(store, c);
    let size = 50 + 41 * p + 5 * m;
    if out.len() < size {
        return Err(Refused::NoRoom);
    }
    put_all(store, out, m);
    Ok(size as u64)
}

// Saves a store: 9 for one that is not usable, 11 where the output is shorter than the save, or 0 and its size. A refusal writes nothing.
pub fn save(store: &[u8], out: &mut [u8]) -> Answer
    ensures { (result ≡ S.save_answer store.now out.old) × (out.new ≡ S.save_after store.now out.old) }
{
    Answer::from(written(store, out))
}
