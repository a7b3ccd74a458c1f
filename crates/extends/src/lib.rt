// Whether a file begins with an earlier one: the earlier tree's root, worked out of what a store of the file holds.
#![tactic(auto)]

ghost use Rattle.std.specs.Prelude.{◌≡◌, ◌≤◌, length};
ghost use Rattle.octets.specs.Octets.{cut};
ghost use Rattle.sha256.specs.Sha256.{sha256, pair_hash};
ghost use Rattle.tree.specs.Values.{pad_value};
ghost use Rattle.limits.specs.Limits.{longest_file, tallest_tree};
ghost use Rattle.numbers.specs.Refusals.{answer_of, code_of};
ghost use Rattle.extends.specs.Extends as E;
ghost use Rattle.extends.specs.Asks as R;

use numbers::{Answer, Refused};
use sha256::Hashed;
use store::{file_length, held_hash, is_usable};
use tree::geometry::{block_count, block_size, covering, height};
use tree::values::pad_value;

// ---- the earlier tree

// The hash of two, or the first of them that is none.
fn both(l: Hashed, r: Hashed) -> Hashed
    ensures { result ≡ E.both l r }
{
    if l.number != 0 {
        return l;
    }
    if r.number != 0 {
        return r;
    }
    let a = l.hash;
    let b = r.hash;
    let hash = sha256::pair(a, b);
    Hashed { number: 0, hash }
}

// What is worked out for a position, and the padding value of its layer.
#[derive(Clone, Copy)]
pub struct Mixing {
    pub found: Hashed,
    pub pad: [u8; 32],
}

// One layer up.
fn parent(l: Hashed, r: Hashed, pad: [u8; 32]) -> Mixing
    ensures { (result.found ≡ E.both l r) × (result.pad ≡ pair_hash pad pad) }
{
    let found = both(l, r);
    let above = sha256::pair(pad, pad);
    Mixing { found, pad: above }
}

// The one position of `layer` that is neither held nor padding. Of its children again at most one is worked out.
fn edge(store: &[u8], length: usize, last: [u8; 32], layer: usize, index: usize) -> Mixing
    requires { (layer ≤ tallest_tree) × (length ≤ longest_file) × R.Mixed length layer index }
    ensures { (result.found ≡ E.earlier store.now length last layer index) × (result.pad ≡ pad_value layer) }
{
    if layer == 0 {
        let found = Hashed {
            number: 0,
            hash: last,
        };
        let pad = pad_value(0);
        return Mixing { found, pad };
    }
    let d = layer - 1;
    let j = 2 * index;
    let k = j + 1;
    let w = length / 16384;
    let whole = w >> d;
    if whole <= j {
        let below = edge(store, length, last, d, j);
        let left = below.found;
        let pad = below.pad;
        let right = Hashed {
            number: 0,
            hash: pad,
        };
        return parent(left, right, pad);
    }
    let left = held_hash(store, d, j);
    let b = block_count(length);
    let some = covering(b, d);
    if some <= k {
        let pad = pad_value(d);
        let right = Hashed {
            number: 0,
            hash: pad,
        };
        return parent(left, right, pad);
    }
    let below = edge(store, length, last, d, k);
    let right = below.found;
    let pad = below.pad;
    parent(left, right, pad)
}

// The earlier tree's root.
fn earlier_root(store: &[u8], length: usize, last: [u8; 32]) -> Hashed
    requires { (1 ≤ length) × (length ≤ longest_file) }
    ensures { result ≡ E.earlier_root store.now length last }
{
    let b = block_count(length);
    let h = height(b);
    let w = length / 16384;
    let whole = w >> h;
    if 0 < whole {
        return held_hash(store, h, 0);
    }
    let top = edge(store, length, last, h, 0);
    top.found
}

// ---- the block over the earlier end

// How many bytes it has.
fn over_size(most: usize, length: usize) -> usize
    ensures { result ≡ E.over_size most length }
{
    if length % 16384 == 0 {
        return 0;
    }
    let w = length / 16384;
    block_size(most, w)
}

// The hash of its first bytes, and its own.
#[derive(Clone, Copy)]
pub struct Ends {
    pub last: [u8; 32],
    pub whole: [u8; 32],
}

// Both in one pass.
fn ends_of(block: &[u8], r: usize) -> Ends
    requires { r ≤ length block.now }
    ensures { (result.last ≡ sha256 (cut block.now 0 r)) × (result.whole ≡ sha256 block.now) }
{
    let begun = running::begin();
    let first = running::absorb(begun, &block[0..r]);
    let last = running::hash_of(first);
    let all = running::absorb(first, &block[r..]);
    let whole = running::hash_of(all);
    Ends { last, whole }
}

// ---- the answer

// By the root worked out, and whether the block is the one held: else 6 or 7.
fn reaches(x: Hashed, right: bool, root: [u8; 32]) -> Result<(), Refused>
    ensures { code_of result ≡ R.reaches x right root }
{
    if x.number != 0 {
        return Err(Refused::NoAnchor);
    }
    let mine = x.hash;
    let alike = octets::same(mine, root);
    if !right {
        return Err(Refused::Differs);
    }
    if alike {
        return Ok(());
    }
    Err(Refused::Differs)
}

// Of an earlier file that ends inside block w.
fn in_block(store: &[u8], length: usize, root: [u8; 32], block: &[u8]) -> Result<(), Refused>
    requires { R.Inside store.now length block.now }
    ensures { code_of result ≡ E.extends_number store.now length root block.now }
{
    let w = length / 16384;
    let leaf = held_hash(store, 0, w);
    if leaf.number != 0 {
        return Err(Refused::NoAnchor);
    }
    let r = length % 16384;
    let ends = ends_of(block, r);
    let held = leaf.hash;
    let whole = ends.whole;
    let last = ends.last;
    let right = octets::same(held, whole);
    let found = earlier_root(store, length, last);
    reaches(found, right, root)
}

// Whether an earlier file has this length and root, by the block over its end: else 9, 3, 4, 6 or 7.
fn begins_with(store: &[u8], length: usize, root: [u8; 32], block: &[u8]) -> Result<(), Refused>
    ensures { code_of result ≡ E.extends_number store.now length root block.now }
{
    let usable = is_usable(store);
    if !usable {
        return Err(Refused::Unusable);
    }
    if length == 0 {
        return Err(Refused::RuleBroken);
    }
    let most = file_length(store);
    if length > most {
        return Err(Refused::RuleBroken);
    }
    let size = over_size(most, length);
    if block.len() != size {
        return Err(Refused::WrongSize);
    }
    if length % 16384 != 0 {
        return in_block(store, length, root, block);
    }
    let none = [0u8; 32];
    let found = earlier_root(store, length, none);
    reaches(found, true, root)
}

fn extended(store: &[u8], length: usize, root: [u8; 32], block: &[u8]) -> Result<u64, Refused>
    ensures { answer_of result ≡ E.extends_answer store.now length root block.now }
{
    begins_with(store, length, root, block)?;
    Ok(length as u64)
}

// Whether the store's file begins with an earlier one of `length` bytes: 0 with `length`. Nothing is written.
pub fn extends(store: &[u8], length: usize, root: [u8; 32], block: &[u8]) -> Answer
    ensures { result ≡ E.extends_answer store.now length root block.now }
{
    Answer::from(extended(store, length, root, block))
}
