// A saved store repaired: the largest part of it that chains to the root is loaded.
ghost use Rattle.std.specs.Prelude.{◌≡◌, true, cond, ◌+◌, ◌*◌, ◌^◌, ◌≤◌, ◌<◌, length};
ghost use Rattle.cells.specs.Cells.{Room};
ghost use Rattle.limits.specs.Limits.{longest_file, tallest_tree};
ghost use Rattle.store.specs.Store.{in_tree, positions};
ghost use Rattle.saved.specs.Ahead.{Padded};
ghost use Rattle.saved.specs.Form as F;
ghost use Rattle.saved.specs.Saved as S;

use crate::chain::{pad_right, pad_values, root_right, two_more};
use crate::form::{hash_in, index_in, is_formed, layer_in, place_count, rank_in};
use crate::load::{opening_number, put_place};
use numbers::Refused;
use octets::{hash_at, number_at, same};
use sha256::pair;
use tree::geometry::{block_count, height, node_number};

// Whether positions `place` and `place` + 1 are left and right child of one position.
fn neighbours(bytes: &[u8], height: usize, place: usize) -> bool
    requires { (height ≤ tallest_tree) × (127 + 41 * place ≤ length bytes.now) × (in_tree height (F.layer_in bytes.now place) (F.index_in bytes.now place) ≡ true) × (in_tree height (F.layer_in bytes.now (place + 1)) (F.index_in bytes.now (place + 1)) ≡ true) }
    ensures { result ≡ S.neighbours height bytes.now place }
{
    let left = rank_in(bytes, height, place);
    let right = rank_in(bytes, height, place + 1);
    if right != left + 1 {
        return false;
    }
    let i = index_in(bytes, place);
    if i != 2 * (i / 2) {
        return false;
    }
    let l = layer_in(bytes, place);
    l < height
}

// The number of the position above position `place`.
fn parent_in(bytes: &[u8], height: usize, place: usize) -> usize
    requires { (height ≤ tallest_tree) × (86 + 41 * place ≤ length bytes.now) × (in_tree height (F.layer_in bytes.now place) (F.index_in bytes.now place) ≡ true) }
    ensures { (result ≡ S.parent_in height bytes.now place) × (result < positions height) }
{
    let l = layer_in(bytes, place);
    let i = index_in(bytes, place);
    node_number(height, l, i) / 2
}

// Whether positions `place` and `place` + 1 join what the store holds.
fn joins(
    store: &[u8],
    bytes: &[u8],
    pads: &[u8],
    height: usize,
    blocks: usize,
    place: usize,
) -> bool
    requires { (height ≤ tallest_tree) × (127 + 41 * place ≤ length bytes.now) × (in_tree height (F.layer_in bytes.now place) (F.index_in bytes.now place) ≡ true) × (in_tree height (F.layer_in bytes.now (place + 1)) (F.index_in bytes.now (place + 1)) ≡ true) × Room (positions height) store.now × Padded height pads.now }
    ensures { result ≡ S.joins height blocks bytes.now store.now place }
{
    let near = neighbours(bytes, height, place);
    if !near {
        return false;
    }
    let up = parent_in(bytes, height, place);
    let held = cells::held(store, up);
    if !held {
        return false;
    }
    let left = pad_right(bytes, pads, height, blocks, place);
    if !left {
        return false;
    }
    let right = pad_right(bytes, pads, height, blocks, place + 1);
    if !right {
        return false;
    }
    let x = hash_in(bytes, place);
    let y = hash_in(bytes, place + 1);
    let v = pair(x, y);
    let w = cells::hash_of(store, up);
    same(v, w)
}

// Positions `place` and `place` + 1 become held, if they join what is.
fn mend_two(
    store: &mut [u8],
    bytes: &[u8],
    pads: &[u8],
    height: usize,
    blocks: usize,
    place: usize,
) -> bool
    requires { (height ≤ tallest_tree) × (127 + 41 * place ≤ length bytes.now) × (in_tree height (F.layer_in bytes.now place) (F.index_in bytes.now place) ≡ true) × (in_tree height (F.layer_in bytes.now (place + 1)) (F.index_in bytes.now (place + 1)) ≡ true) × Room (positions height) store.old × Padded height pads.now }
    ensures { (result ≡ S.joins height blocks bytes.now store.old place) × (store.new ≡ cond result (S.with_place height bytes.now (S.with_place height bytes.now store.old place) (place + 1)) store.old) }
{
    let two = joins(store, bytes, pads, height, blocks, place);
    if !two {
        return false;
    }
    put_place(store, bytes, height, place);
    put_place(store, bytes, height, place + 1);
    true
}

// Behind `place` positions nothing is left of two that joined, and one of two that did not.
fn left_over(place: usize, two: bool) -> usize
    requires { place + 2 < 2 ^ 64 }
    ensures { result ≡ cond two place (place + 1) }
{
    if two {
        return place;
    }
    place + 1
}

// Of the first `places` positions those that join what is held become held, from the last one down: how many.
fn mend_by(
    store: &mut [u8],
    bytes: &[u8],
    pads: &[u8],
    height: usize,
    blocks: usize,
    places: usize,
) -> usize
    requires { (height ≤ tallest_tree) × (45 + 41 * places ≤ length bytes.now) × (F.places_good height bytes.now places ≡ true) × Room (positions height) store.old × Padded height pads.now }
    ensures { (result ≡ S.mended_many height blocks bytes.now store.old places) × (store.new ≡ S.mended height blocks bytes.now store.old places) × (result ≤ places) }
{
    let mut kept = 0;
    // By two where they join, else by one: a cursor, no counted index.
    let mut k = places;
    while 1 < k {
        let first = k - 2;
        let two = mend_two(store, bytes, pads, height, blocks, first);
        kept = two_more(kept, two);
        k = left_over(first, two);
    }
    kept
}

// What mend_by does, with the padding values worked out here, once.
fn mend(store: &mut [u8], bytes: &[u8], height: usize, blocks: usize, places: usize) -> usize
    requires { (height ≤ tallest_tree) × (45 + 41 * places ≤ length bytes.now) × (F.places_good height bytes.now places ≡ true) × Room (positions height) store.old }
    ensures { (result ≡ S.mended_many height blocks bytes.now store.old places) × (store.new ≡ S.mended height blocks bytes.now store.old places) × (result ≤ places) }
{
    let pads = pad_values(height);
    mend_by(store, bytes, &pads, height, blocks, places)
}

// kd_repaired: a number, and beside 0 how many positions were dropped and how many are held.
#[repr(C)]
#[derive(Clone, Copy)]
pub struct Repaired {
    pub number: u32,
    pub dropped: u64,
    pub held: u64,
}

impl From<Result<Repaired, Refused>> for Repaired {
    ghost from_gives = { λ outcome repaired. repaired ≡ S.repaired_of outcome };

    fn from(outcome: Result<Repaired, Refused>) -> Repaired {
        match outcome {
            Ok(repaired) => repaired,
            Err(why) => Repaired {
                number: u32::from(why),
                dropped: 0,
                held: 0,
            },
        }
    }
}

// Whether bytes with a whole opening record in range have the form and the root with the opening's value.
fn is_rooted(bytes: &[u8]) -> bool
    requires { (45 ≤ length bytes.now) × (F.length_in bytes.now ≤ longest_file) }
    ensures { result ≡ S.rooted bytes.now }
{
    let n = number_at(bytes, 1, 8);
    let c = block_count(n);
    let h = height(c);
    let ok = is_formed(bytes, h, c);
    if !ok {
        return false;
    }
    let p = place_count(bytes);
    root_right(bytes, h, p)
}

// The buffer is opened with the facts that the bytes name; then what joins the root becomes held: how many positions are held.
fn write_kept(store: &mut [u8], bytes: &[u8]) -> usize
    requires { (S.opening_number (length store.old) bytes.now ≡ 0) × (S.rooted bytes.now ≡ true) }
    ensures { (result ≡ S.repaired_many store.old bytes.now) × (store.new ≡ S.repaired store.old bytes.now) × (result ≤ F.place_count bytes.now) }
{
    let n = number_at(bytes, 1, 8);
    let plen = number_at(bytes, 9, 4);
    let root = hash_at(bytes, 13);
    store::open(store, n, plen, root);
    let c = block_count(n);
    let h = height(c);
    let p = place_count(bytes);
    let below = p - 1;
    let kept = mend(store, bytes, h, c, below);
    kept + 1
}

fn kept(store: &mut [u8], bytes: &[u8]) -> Result<Repaired, Refused>
    ensures answer { S.repaired_of result ≡ S.repair_answer store.old bytes.now }
    ensures left { store.new ≡ S.repair_after store.old bytes.now }
{
    opening_number(store.len(), bytes)?;
    if !is_rooted(bytes) {
        return Err(Refused::NotSaved);
    }
    let held = write_kept(store, bytes);
    let p = place_count(bytes);
    let dropped = p - held;
    Ok(Repaired {
        number: 0,
        dropped: dropped as u64,
        held: held as u64,
    })
}

// Loads the largest part of a saved store that chains to the root, without its marks: 32 without a whole opening record, 10 for its facts, 9 for the
// room, 32 where the bytes have not the form or the root has not the opening's value. A refusal changes nothing.
pub fn repair(store: &mut [u8], bytes: &[u8]) -> Repaired
    ensures { (result ≡ S.repair_answer store.old bytes.now) × (store.new ≡ S.repair_after store.old bytes.now) }
{
    Repaired::from(kept(store, bytes))
}
