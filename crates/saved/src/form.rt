// The saved form of a store: whether bytes have it, and whether the positions that they name chain to the root.
ghost use Rattle.std.specs.Prelude.{◌≡◌, true, ◌&&◌, ◌+◌, ◌*◌, ◌^◌, ◌≤◌, ◌<◌, length, get_or, eqb};
ghost use Rattle.limits.specs.Limits.{tallest_tree};
ghost use Rattle.store.specs.Store.{in_tree};
ghost use Rattle.saved.specs.Form as F;

use octets::{hash_at, number_at};

// How many marks the end record says.
pub fn mark_count(bytes: &[u8]) -> usize
    requires { 4 ≤ length bytes.now }
    ensures { (result ≡ F.mark_count bytes.now) × (result < 256 ^ 4) }
{
    let at = bytes.len() - 4;
    number_at(bytes, at, 4)
}

// Whether the bytes are as long as an opening, whole positions, the marks that the end record counts, and that end record.
pub fn is_sized(bytes: &[u8]) -> bool
    ensures { result ≡ F.sized bytes.now }
{
    let size = bytes.len();
    if size < 50 {
        return false;
    }
    if bytes[size - 5] != 4 {
        return false;
    }
    let m = mark_count(bytes);
    let others = 50 + 5 * m;
    if size < others {
        return false;
    }
    (size - others) % 41 == 0
}

// How many positions they have.
pub fn place_count(bytes: &[u8]) -> usize
    requires { F.sized bytes.now ≡ true }
    ensures { result ≡ F.place_count bytes.now }
{
    let m = mark_count(bytes);
    (bytes.len() - (50 + 5 * m)) / 41
}

// Position `place`'s layer.
pub fn layer_in(bytes: &[u8], place: usize) -> usize
    requires { 86 + 41 * place ≤ length bytes.now }
    ensures { result ≡ F.layer_in bytes.now place }
{
    number_at(bytes, 46 + 41 * place, 4)
}

// Position `place`'s index.
pub fn index_in(bytes: &[u8], place: usize) -> usize
    requires { 86 + 41 * place ≤ length bytes.now }
    ensures { result ≡ F.index_in bytes.now place }
{
    number_at(bytes, 50 + 41 * place, 4)
}

// Position `place`'s hash.
pub fn hash_in(bytes: &[u8], place: usize) -> [u8; 32]
    requires { 86 + 41 * place ≤ length bytes.now }
    ensures { result ≡ F.hash_in bytes.now place }
{
    hash_at(bytes, 54 + 41 * place)
}

// Whether record `place` is a position of a tree of `height`.
pub fn place_there(bytes: &[u8], height: usize, place: usize) -> bool
    requires { (height ≤ tallest_tree) × (86 + 41 * place ≤ length bytes.now) }
    ensures { result ≡ (eqb (get_or bytes.now (45 + 41 * place) 0) 2 && in_tree height (F.layer_in bytes.now place) (F.index_in bytes.now place)) }
{
    if bytes[45 + 41 * place] != 2 {
        return false;
    }
    let l = layer_in(bytes, place);
    if l > height {
        return false;
    }
    let i = index_in(bytes, place);
    let d = height - l;
    i < 1 << d
}

// Its place in the order by layer and then index.
pub fn rank_in(bytes: &[u8], height: usize, place: usize) -> usize
    requires { (height ≤ tallest_tree) × (86 + 41 * place ≤ length bytes.now) × (in_tree height (F.layer_in bytes.now place) (F.index_in bytes.now place) ≡ true) }
    ensures { (result ≡ F.rank_in height bytes.now place) × (result + 2 ≤ 2 * 2 ^ height) }
{
    let l = layer_in(bytes, place);
    let i = index_in(bytes, place);
    let d = height - l;
    let all = 2 << height;
    let above = 2 << d;
    all - above + i
}

// Whether the first `places` positions are positions of the tree, rising by layer and then index.
pub fn places_good(bytes: &[u8], height: usize, places: usize) -> bool
    requires { (height ≤ tallest_tree) × (45 + 41 * places ≤ length bytes.now) }
    ensures { result ≡ F.places_good height bytes.now places }
{
    let mut next = 0;
    for k in 0..places {
        let ok = place_there(bytes, height, k);
        if !ok {
            return false;
        }
        let rank = rank_in(bytes, height, k);
        if rank < next {
            return false;
        }
        next = rank + 1;
    }
    true
}

// Block `mark` of the marks that begin at `at`.
pub fn block_in(bytes: &[u8], at: usize, mark: usize) -> usize
    requires { at + 5 * mark + 5 ≤ length bytes.now }
    ensures { (result ≡ F.block_in bytes.now at mark) × (result < 256 ^ 4) }
{
    number_at(bytes, at + 1 + 5 * mark, 4)
}

// Whether the `marks` marks that begin at `at` are blocks below `blocks`, rising.
pub fn marks_good(bytes: &[u8], blocks: usize, at: usize, marks: usize) -> bool
    requires { at + 5 * marks ≤ length bytes.now }
    ensures { result ≡ F.marks_good blocks bytes.now at marks }
{
    let mut next = 0;
    for k in 0..marks {
        if bytes[at + 5 * k] != 3 {
            return false;
        }
        let block = block_in(bytes, at, k);
        if block >= blocks {
            return false;
        }
        if block < next {
            return false;
        }
        next = block + 1;
    }
    true
}

// Whether the bytes behind a whole opening record have the form, for a file of `blocks` blocks and a tree of `height`.
pub fn is_formed(bytes: &[u8], height: usize, blocks: usize) -> bool
    requires { (height ≤ tallest_tree) × (height ≡ F.height_in bytes.now) × (blocks ≡ F.blocks_in bytes.now) }
    ensures { result ≡ F.formed bytes.now }
{
    let ok = is_sized(bytes);
    if !ok {
        return false;
    }
    let p = place_count(bytes);
    let places = places_good(bytes, height, p);
    if !places {
        return false;
    }
    let m = mark_count(bytes);
    let at = 45 + 41 * p;
    marks_good(bytes, blocks, at, m)
}
