// Whether the positions that bytes of the form name chain to the root, in one pass over the records.
ghost use Rattle.std.specs.Prelude.{◌≡◌, true, cond, ℕ, ◌+◌, ◌*◌, ◌%◌, ◌^◌, ◌≤◌, ◌<◌, length};
ghost use Rattle.limits.specs.Limits.{tallest_tree};
ghost use Rattle.lanes.specs.Hashes.{Filled};
ghost use Rattle.saved.specs.Form.{place_count, layer_in, hash_in, places_good};
ghost use Rattle.saved.specs.Ahead.{Padded, pair_in, Ready};
ghost use Rattle.saved.specs.Saved as S;

use crate::form::{hash_in, index_in, layer_in, rank_in};
use lanes::hashes::{pairs8, put8};
use octets::{hash_at, put_hash, same};
use sha256::pair;
use tree::geometry::covering;

// The padding values of the layers up to `height`, one after the other.
pub fn pad_values(height: usize) -> [u8; 672]
    requires { height ≤ tallest_tree }
    ensures { Padded height result }
{
    let mut pads = [0u8; 672];
    let mut v = [0u8; 32];
    for l in 0..height + 1 {
        put_hash(&mut pads, 32 * l, v);
        let w = pair(v, v);
        v = w;
    }
    pads
}

// Whether position `place` is right where it is padding, for a file of `blocks` blocks.
pub fn pad_right(bytes: &[u8], pads: &[u8], height: usize, blocks: usize, place: usize) -> bool
    requires { (86 + 41 * place ≤ length bytes.now) × (height ≤ tallest_tree) × (layer_in bytes.now place ≤ height) × Padded height pads.now }
    ensures { result ≡ S.pad_right blocks bytes.now place }
{
    let l = layer_in(bytes, place);
    let i = index_in(bytes, place);
    let real = covering(blocks, l);
    if i < real {
        return true;
    }
    let v = hash_at(pads, 32 * l);
    let mine = hash_in(bytes, place);
    same(mine, v)
}

// The hashes of sixteen positions from `place` on, one after the other.
fn gathered(bytes: &[u8], place: usize) -> [u8; 512]
    requires { 701 + 41 * place ≤ length bytes.now }
    ensures { Filled (λ (x : ℕ). hash_in bytes.now (place + x)) 512 16 result }
{
    let mut row = [0u8; 512];
    for x in 0..16 {
        let hash = hash_in(bytes, place + x);
        put_hash(&mut row, 32 * x, hash);
    }
    row
}

// The hashes of eight pairs of positions, from pair n on.
fn pairs_from(bytes: &[u8], n: usize) -> [u8; 256]
    requires { 701 + 82 * n ≤ length bytes.now }
    ensures { Filled (λ (x : ℕ). pair_in bytes.now (n + x)) 256 8 result }
{
    let row = gathered(bytes, 2 * n);
    pairs8(&row)
}

// The hashes of the eight pairs from n on are put into the room, if the first `places` positions have them.
fn make_ready(room: &mut [u8], bytes: &[u8], n: usize, places: usize)
    requires { (length room.old ≡ 256) × (n % 8 ≡ 0) × (n ≤ places) × (45 + 41 * places ≤ length bytes.now) }
    ensures { Ready bytes.now places n room.new }
{
    if 2 * n + 16 > places {
        return;
    }
    let hashes = pairs_from(bytes, n);
    put8(room, 0, hashes);
}

// The room that is ready for pair n becomes ready for the next one.
fn make_next(room: &mut [u8], bytes: &[u8], n: usize, places: usize)
    requires { Ready bytes.now places n room.old × (n + 1 ≤ places) × (45 + 41 * places ≤ length bytes.now) }
    ensures { Ready bytes.now places (n + 1) room.new }
{
    let next = n + 1;
    if next % 8 != 0 {
        return;
    }
    make_ready(room, bytes, next, places);
}

// The hash of pair n, of the first `places` positions: from the room, or worked out for one of the last pairs.
fn pair_in(bytes: &[u8], room: &[u8], n: usize, places: usize) -> [u8; 32]
    requires { Ready bytes.now places n room.now × (2 * n + 1 < places) × (45 + 41 * places ≤ length bytes.now) }
    ensures { result ≡ pair_in bytes.now n }
{
    let x = n % 8;
    let first = n - x;
    if 2 * first + 16 <= places {
        return hash_at(room, 32 * x);
    }
    let k = 2 * n;
    let left = hash_in(bytes, k);
    let right = hash_in(bytes, k + 1);
    pair(left, right)
}

// Whether the positions of pair n hash to position j.
fn made_by(bytes: &[u8], room: &[u8], n: usize, j: usize, places: usize) -> bool
    requires { Ready bytes.now places n room.now × (2 * n + 1 < j) × (j < places) × (45 + 41 * places ≤ length bytes.now) }
    ensures { result ≡ S.made_by bytes.now (2 * n) j }
{
    let v = pair_in(bytes, room, n, places);
    let w = hash_in(bytes, j);
    same(v, w)
}

// Whether positions `place` and `place` + 1 are the children of position `parent`, by their ranks.
pub fn children_of(bytes: &[u8], height: usize, place: usize, parent: usize, places: usize) -> bool
    requires { (height ≤ tallest_tree) × (45 + 41 * places ≤ length bytes.now) × (places_good height bytes.now places ≡ true) × (place + 1 < parent) × (parent < places) }
    ensures { result ≡ S.children_of height bytes.now place parent }
{
    let left = rank_in(bytes, height, place);
    let up = rank_in(bytes, height, parent);
    let all = 2 << height;
    if left + all != 2 * up {
        return false;
    }
    let right = rank_in(bytes, height, place + 1);
    right == left + 1
}

// Whether the positions of pair n are the children of position j, hash to it and are right where they are padding.
fn family_at(
    bytes: &[u8],
    pads: &[u8],
    room: &[u8],
    height: usize,
    blocks: usize,
    n: usize,
    j: usize,
    places: usize,
) -> bool
    requires { (height ≤ tallest_tree) × (45 + 41 * places ≤ length bytes.now) × (places_good height bytes.now places ≡ true) × (2 * n ≤ j) × (j < places) × Padded height pads.now × Ready bytes.now places n room.now }
    ensures { result ≡ S.family_at height blocks bytes.now (2 * n) j }
{
    let k = 2 * n;
    if k + 1 >= j {
        return false;
    }
    let near = children_of(bytes, height, k, j, places);
    if !near {
        return false;
    }
    let left = pad_right(bytes, pads, height, blocks, k);
    if !left {
        return false;
    }
    let right = pad_right(bytes, pads, height, blocks, k + 1);
    if !right {
        return false;
    }
    made_by(bytes, room, n, j, places)
}

// Two more are claimed, or none.
pub fn two_more(count: usize, two: bool) -> usize
    requires { count + 2 < 2 ^ 64 }
    ensures { result ≡ cond two (count + 2) count }
{
    count + 2 * usize::from(two)
}

// One pair more is claimed, and the room ready for the next one; or none.
fn claim(room: &mut [u8], bytes: &[u8], n: usize, places: usize, two: bool) -> usize
    requires { Ready bytes.now places n room.old × (n + 1 ≤ places) × (45 + 41 * places ≤ length bytes.now) }
    ensures { (result ≡ cond two (n + 1) n) × Ready bytes.now places result room.new }
{
    if !two {
        return n;
    }
    make_next(room, bytes, n, places);
    n + 1
}

// How many pairs of the first `places` positions are claimed by their parents.
fn claim_all(
    bytes: &[u8],
    pads: &[u8],
    room: &mut [u8],
    height: usize,
    blocks: usize,
    places: usize,
) -> usize
    requires { (height ≤ tallest_tree) × (45 + 41 * places ≤ length bytes.now) × (places_good height bytes.now places ≡ true) × Padded height pads.now × Ready bytes.now places 0 room.old }
    ensures { (2 * result ≡ S.claimed height blocks bytes.now places) × (2 * result ≤ places) }
{
    let mut n = 0;
    for j in 0..places {
        let two = family_at(bytes, pads, &*room, height, blocks, n, j, places);
        n = claim(room, bytes, n, places, two);
    }
    n
}

// How many of the first `places` positions are claimed by their parents. The padding values are worked out once, and the pairs' hashes eight at a time.
pub fn claimed(bytes: &[u8], height: usize, blocks: usize, places: usize) -> usize
    requires { (height ≤ tallest_tree) × (45 + 41 * places ≤ length bytes.now) × (places_good height bytes.now places ≡ true) }
    ensures { (result ≡ S.claimed height blocks bytes.now places) × (result ≤ places) }
{
    let pads = pad_values(height);
    let mut room = [0u8; 256];
    make_ready(&mut room, bytes, 0, places);
    let n = claim_all(bytes, &pads, &mut room, height, blocks, places);
    2 * n
}

// Whether the last position is the root, with the opening's value.
pub fn root_right(bytes: &[u8], height: usize, places: usize) -> bool
    requires { (height ≤ tallest_tree) × (45 + 41 * places ≤ length bytes.now) × (places_good height bytes.now places ≡ true) × (places ≡ place_count bytes.now) }
    ensures { result ≡ S.root_right height bytes.now }
{
    if places == 0 {
        return false;
    }
    let last = places - 1;
    let up = rank_in(bytes, height, last);
    let all = 2 << height;
    if up + 2 != all {
        return false;
    }
    let mine = hash_in(bytes, last);
    let root = hash_at(bytes, 13);
    same(mine, root)
}
