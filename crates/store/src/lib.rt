// Whether a lent buffer is a store, the size a host has to lend, opening a store, asking for a held hash.
#![tactic(auto)]

ghost use Rattle.std.specs.Prelude.{◌≡◌, true, ◌++◌, ◌≤◌, length};
ghost use Rattle.octets.specs.Octets.{pasted, zeroed, be};
ghost use Rattle.cells.specs.Cells.{put};
ghost use Rattle.numbers.specs.Refusals.{answer_of};
ghost use Rattle.limits.specs.Limits.{longest_file};
ghost use Rattle.store.specs.Store as S;

use numbers::{Answer, Refused};
use sha256::Hashed;
use tree::geometry::{block_count, height, is_piece_length, node_number};

// The file's length, as the facts name it.
pub fn file_length(store: &[u8]) -> usize
    requires { 64 ≤ length store.now }
    ensures { result ≡ S.file_length store.now }
{
    octets::number_at(store, 0, 8)
}

// The piece length, as the facts name it.
pub fn piece_length_of(store: &[u8]) -> usize
    requires { 64 ≤ length store.now }
    ensures { result ≡ S.piece_length store.now }
{
    octets::number_at(store, 8, 4)
}

// The pieces root, as the facts name it. What is held at layer h is asked elsewhere.
pub fn facts_root(store: &[u8]) -> [u8; 32]
    requires { 64 ≤ length store.now }
    ensures { result ≡ S.facts_root store.now }
{
    octets::hash_at(store, 12)
}

// B, the blocks of the file.
pub fn blocks_of(store: &[u8]) -> usize
    requires { 64 ≤ length store.now }
    ensures { result ≡ S.blocks_of store.now }
{
    block_count(file_length(store))
}

// h, the height of the file's tree.
pub fn height_of(store: &[u8]) -> usize
    requires { 64 ≤ length store.now }
    ensures { result ≡ S.height_of store.now }
{
    height(blocks_of(store))
}

// Whether a file's length and a piece length are in range.
fn facts_in_range(length: usize, plen: usize) -> bool
    ensures { result ≡ S.facts_in_range length plen }
{
    if length < 1 {
        return false;
    }
    if length > limits::LONGEST_FILE {
        return false;
    }
    is_piece_length(plen)
}

// The bytes that a store for a file of n bytes uses. For an n near 2^64 they would not fit a number.
fn size_in_range(n: usize) -> usize
    requires { n ≤ longest_file }
    ensures { result ≡ S.store_size n }
{
    let b = block_count(n);
    let h = height(b);
    let p = 2 << h;
    let leaves = 1 << h;
    33 * (p - 1) + 64 + leaves
}

// Whether the buffer names facts in range and has their room; nothing else makes a store unusable.
pub fn is_usable(store: &[u8]) -> bool
    ensures { result ≡ S.usable store.now }
{
    if store.len() < 64 {
        return false;
    }
    let n = file_length(store);
    let plen = piece_length_of(store);
    facts_in_range(n, plen) && size_in_range(n) <= store.len()
}

// The number that the positions of a store's tree stay below.
pub fn positions_of(store: &[u8]) -> usize
    requires { S.usable store.now ≡ true }
    ensures { result ≡ S.positions (S.height_of store.now) }
{
    let h = height_of(store);
    2 << h
}

// The size of a store for such a file.
fn size_for(length: usize, plen: usize) -> Result<usize, Refused>
    ensures { answer_of result ≡ S.size_answer length plen }
{
    if facts_in_range(length, plen) {
        let size = size_in_range(length);
        return Ok(size);
    }
    Err(Refused::FactsOutOfRange)
}

// The size of a store, or 10.
pub fn store_size(length: usize, plen: usize) -> Answer
    ensures { result ≡ S.size_answer length plen }
{
    Answer::from(size_for(length, plen).map(|size| size as u64))
}

// Sets the first `size` bytes: the facts, the root held, zeros.
fn set_bytes(store: &mut [u8], size: usize, n: usize, plen: usize, root: [u8; 32])
    requires { (97 ≤ size) × (size ≤ length store.old) }
    ensures { store.new ≡ put (pasted (zeroed store.old size) 0 (be 8 n ++ (be 4 plen ++ root))) 1 root }
{
    octets::clear(store, size);
    octets::put_number(store, 0, 8, n);
    octets::put_number(store, 8, 4, plen);
    octets::put_hash(store, 12, root);
    cells::put_at(store, 1, root);
}

fn opened(store: &mut [u8], length: usize, plen: usize, root: [u8; 32]) -> Result<u64, Refused>
    ensures answer { answer_of result ≡ S.open_answer store.old length plen }
    ensures left { store.new ≡ S.open_after store.old length plen root }
{
    let size = size_for(length, plen)?;
    if store.len() < size {
        return Err(Refused::Unusable);
    }
    set_bytes(store, size, length, plen, root);
    Ok(1)
}

// Opens a store for a file of `length` bytes: 10 for facts out of range, then 9 for too little room; else the root alone is held, and the count is 1.
pub fn open(store: &mut [u8], length: usize, plen: usize, root: [u8; 32]) -> Answer
    ensures { (result ≡ S.open_answer store.old length plen) × (store.new ≡ S.open_after store.old length plen root) }
{
    Answer::from(opened(store, length, plen, root))
}

// Whether a tree of `height` has position `index` of `layer`.
fn in_tree(height: usize, layer: usize, index: usize) -> bool
    requires { height ≤ 63 }
    ensures { result ≡ S.in_tree height layer index }
{
    layer <= height && index < 1 << (height - layer)
}

fn found(store: &[u8], layer: usize, index: usize) -> Result<[u8; 32], Refused>
    ensures { S.hashed_of result ≡ S.held_answer store.now layer index }
{
    if !is_usable(store) {
        return Err(Refused::Unusable);
    }
    let h = height_of(store);
    if !in_tree(h, layer, index) {
        return Err(Refused::RuleBroken);
    }
    let q = node_number(h, layer, index);
    if !cells::held(store, q) {
        return Err(Refused::NoAnchor);
    }
    Ok(cells::hash_of(store, q))
}

// The hash held at position `index` of `layer`; 9 where the store is not usable, 3 where the tree has no such position, 6 where it is not held.
// Beside a refusal the hash is zero: C gets both in one struct.
pub fn held_hash(store: &[u8], layer: usize, index: usize) -> Hashed
    ensures { result ≡ S.held_answer store.now layer index }
{
    match found(store, layer, index) {
        Ok(hash) => Hashed { number: 0, hash },
        Err(why) => Hashed {
            number: u32::from(why),
            hash: [0u8; 32],
        },
    }
}
