// The running tree of a history: bytes come in bursts, and at the end there are N, the pieces root and the piece layer.
// A state goes in by value, and comes back after each burst; a lent layer gets each piece's hash once the history runs past the piece.
#![tactic(auto)]

ghost use Rattle.std.specs.Prelude.{◌≡◌, true, false, cond, [], ◌+◌, ◌-◌, ◌*◌, ◌/◌, ◌%◌, ◌^◌, ◌≤◌, ◌<◌, min, length, eqb};
ghost use Rattle.limits.specs.Limits.{longest_file, tallest_tree};
ghost use Rattle.sha256.specs.Sha256.{pair_hash};
ghost use Rattle.tree.specs.Geometry.{block_length, is_piece_length};
ghost use Rattle.running.specs.Bursts.{state_of};
ghost use Rattle.history.specs.Growing as G;
ghost use Rattle.history.specs.Parts as P;
ghost use Rattle.history.specs.Answers as W;
ghost use Rattle.history.specs.Answers.{Possible};
ghost use Rattle.numbers.specs.Refusals.{code_of};

use lanes::hashes::hash8;
use numbers::Refused;
use octets::{hash_at, put_hash};
use running::Hashing;
use sha256::pair;
use tree::geometry::{block_count, has_layer, height, is_piece_length, piece_count, piece_layer};

// The bytes of eight blocks, which are hashed side by side.
const EIGHT_BLOCKS: usize = 8 * 16384;

// 32 bytes for each layer of the tallest tree, the root's included.
pub const NODES_SIZE: usize = 32 * (limits::TALLEST_TREE + 1);

// kd_history: N is the length; `block` is the running hash of the block under way; `nodes` has for each layer its last finished node.
#[repr(C)]
#[derive(Clone, Copy)]
pub struct History {
    pub piece_length: u64,
    pub length: u64,
    pub block: Hashing,
    pub nodes: [u8; NODES_SIZE],
}

// kd_history_answer, as C has it: a number, and the state after the burst; beside a refusal the state as it was given.
#[repr(C)]
#[derive(Clone, Copy)]
pub struct HistoryAnswer {
    pub number: u32,
    pub history: History,
}

// kd_history_end_answer, as C has it: beside a refusal all is zero.
#[repr(C)]
#[derive(Clone, Copy)]
pub struct HistoryEnd {
    pub number: u32,
    pub length: u64,
    pub root: [u8; 32],
    pub layer_size: u64,
}

// No bytes yet; 10 for a bad piece length.
pub fn begin(plen: usize) -> HistoryAnswer
    ensures { result ≡ W.begin_answer plen }
{
    let nodes = [0u8; NODES_SIZE];
    if is_piece_length(plen) {
        return HistoryAnswer {
            number: numbers::DONE,
            history: History {
                piece_length: plen as u64,
                length: 0,
                block: running::begin(),
                nodes,
            },
        };
    }
    HistoryAnswer {
        number: u32::from(Refused::FactsOutOfRange),
        history: History {
            piece_length: 0,
            length: 0,
            block: Hashing {
                words: [0u32; 8],
                tail: [0u8; 64],
                tail_size: 0,
                total: 0,
            },
            nodes,
        },
    }
}

// ---- one part of a burst, at most up to the end of a block

// Leaf i is finished. A right child finishes its parent too, and so on upwards; each layer keeps its last finished node.
fn finish(nodes: &mut [u8], i: usize, leaf: [u8; 32])
    requires { (length nodes.old ≡ 32 * G.node_count) × (i < 2 ^ tallest_tree) }
    ensures { nodes.new ≡ G.finishing G.node_count nodes.old 0 i leaf }
{
    let mut hash = leaf;
    let mut k = 0;
    let mut j = i;
    // No range: it stops at the first left child.
    while j % 2 == 1 {
        let at = 32 * k;
        let left = hash_at(nodes, at);
        put_hash(nodes, at, hash);
        let parent = pair(left, hash);
        hash = parent;
        j = j / 2;
        k += 1;
    }
    let at = 32 * k;
    put_hash(nodes, at, hash);
}

// The state after a part that ends within a block or with it.
fn grow(history: History, part: &[u8]) -> History
    requires { (0 < length part.now) × (history.length % block_length + length part.now ≤ block_length) × (history.length + length part.now ≤ longest_file) × (history.block.total ≡ history.length % block_length) × (history.block.tail_size ≡ history.block.total % 64) }
    ensures { (result ≡ G.grown_by history part.now) × (result.piece_length ≡ history.piece_length) × (result.length ≡ history.length + length part.now) × (result.block.total ≡ result.length % block_length) × (result.block.tail_size ≡ result.block.total % 64) }
{
    let plen = history.piece_length;
    let before = history.length as usize;
    let now_length = before + part.len();
    let old = history.block;
    let mut nodes = history.nodes;
    let block = running::absorb(old, part);
    if now_length % 16384 == 0 {
        let leaf = running::hash_of(block);
        finish(&mut nodes, before / 16384, leaf);
        return History {
            piece_length: plen,
            length: now_length as u64,
            block: running::begin(),
            nodes,
        };
    }
    History {
        piece_length: plen,
        length: now_length as u64,
        block,
        nodes,
    }
}

// The lent layer as a byte comes: where it runs past a piece, the piece's hash is written.
fn note(history: History, layer: &mut [u8])
    requires { (is_piece_length history.piece_length ≡ true) × (0 < history.length → history.length % history.piece_length ≡ 0 → 32 * (history.length / history.piece_length) ≤ length layer.old) }
    ensures { layer.new ≡ G.noted history layer.old }
{
    let n = history.length as usize;
    let plen = history.piece_length as usize;
    if n == 0 {
        return;
    }
    if n % plen != 0 {
        return;
    }
    let nodes = history.nodes;
    let p = piece_layer(plen);
    let hash: [u8; 32] = hash_at(&nodes, 32 * p);
    let i = n / plen - 1;
    put_hash(layer, 32 * i, hash);
}

// ---- a burst

// Whether some bursts give such counts.
fn is_possible(history: History) -> bool
    ensures { result ≡ W.possible_counts history }
{
    let n = history.length as usize;
    let block = history.block;
    if is_piece_length(history.piece_length as usize) {
        if n > limits::LONGEST_FILE {
            return false;
        }
        if block.total != (n % 16384) as u64 {
            return false;
        }
        return block.tail_size == block.total % 64;
    }
    false
}

// How many pieces n bytes have run past.
fn passed(n: usize, plen: usize) -> usize
    ensures { result ≡ W.passed n plen }
{
    piece_count(n, plen).saturating_sub(1)
}

// Whether a hash that a burst of k bytes makes due doesn't fit a layer of m.
fn no_room(history: History, k: usize, m: usize) -> bool
    requires { history.length + k ≤ longest_file }
    ensures { result ≡ W.no_room_for history k m }
{
    let n = history.length as usize;
    let plen = history.piece_length as usize;
    let before = passed(n, plen);
    let after = passed(n + k, plen);
    if before < after {
        return m / 32 < after;
    }
    false
}

// Whether a burst of k bytes may come, with a layer of m: else 9, 10 or 11.
fn check_burst(history: History, k: usize, m: usize) -> Result<(), Refused>
    ensures { code_of result ≡ W.more_number history k m }
{
    if !is_possible(history) {
        return Err(Refused::Unusable);
    }
    let left = limits::LONGEST_FILE - history.length as usize;
    if k > left {
        return Err(Refused::FactsOutOfRange);
    }
    if no_room(history, k, m) {
        return Err(Refused::NoRoom);
    }
    Ok(())
}

// Whether a block's running hash has taken no bytes, by its words.
fn is_begun(block: Hashing) -> bool
    ensures { result ≡ true → block.words ≡ (state_of []).words }
{
    let begun = running::begin();
    block.words == begun.words
}

// How many of the bytes that are left go into the block under way.
fn within_block(n: usize, left: usize) -> usize
    ensures { result ≡ min (block_length - n % block_length) left }
{
    (16384 - n % 16384).min(left)
}

// How many of the bytes that are left are taken at once: those of the block under way, or eight whole blocks where none is begun.
fn part_size(history: History, left: usize) -> usize
    ensures { P.PartSize history left result }
{
    let n = history.length as usize;
    let size = within_block(n, left);
    if left < EIGHT_BLOCKS {
        return size;
    }
    if n % 16384 != 0 {
        return size;
    }
    if is_begun(history.block) {
        return EIGHT_BLOCKS;
    }
    size
}

// The state after a whole block whose leaf is given, where none is begun.
fn grow_block(history: History, leaf: [u8; 32]) -> History
    requires { history.length + block_length ≤ longest_file }
    ensures { result ≡ P.with_leaf history leaf }
{
    let before = history.length as usize;
    let mut nodes = history.nodes;
    finish(&mut nodes, before / 16384, leaf);
    History {
        piece_length: history.piece_length,
        length: (before + 16384) as u64,
        block: running::begin(),
        nodes,
    }
}

// Eight whole blocks: their leaves are worked out side by side, and finished one after the other.
fn grow8(history: History, part: &[u8], layer: &mut [u8]) -> History
    requires { (length part.now ≡ 8 * block_length) × (history.length + length part.now ≤ longest_file) × P.NoneBegun history × P.Due history (length part.now) (length layer.old) }
    ensures { P.Grows history part.now layer.old result layer.new }
{
    let leaves = hash8(part);
    let mut t = history;
    for x in 0..8 {
        note(t, layer);
        let leaf = hash_at(&leaves, 32 * x);
        let later = grow_block(t, leaf);
        t = later;
    }
    t
}

// The state after a part, and before it the hash of a piece that it runs past.
fn take_part(history: History, part: &[u8], layer: &mut [u8]) -> History
    requires { (0 < length part.now) × (history.length + length part.now ≤ longest_file) × P.Part history (length part.now) × P.Due history (length part.now) (length layer.old) }
    ensures { P.Grows history part.now layer.old result layer.new }
{
    if part.len() > 16384 {
        return grow8(history, part, layer);
    }
    let later = grow(history, part);
    note(history, layer);
    later
}

// The burst part by part.
fn run(history: History, burst: &[u8], layer: &mut [u8]) -> History
    requires { Possible history × (history.length + length burst.now ≤ longest_file) × (W.no_room_for history (length burst.now) (length layer.old) ≡ false) }
    ensures { (result ≡ G.grown_by history burst.now) × (layer.new ≡ G.noted_by history layer.old burst.now) }
{
    let mut t = history;
    let mut at = 0;
    // No range: a part's size comes from the state.
    while at < burst.len() {
        let n = part_size(t, burst.len() - at);
        let end = at + n;
        let later = take_part(t, &burst[at..end], layer);
        t = later;
        at = end;
    }
    t
}

// Takes a burst: 9 for counts that no bursts give, 10 past the longest file, 11 if a hash due doesn't fit the layer, else 0.
// A refusal hands back the state as it was given, and leaves the layer.
pub fn more(before: History, burst: &[u8], layer: &mut [u8]) -> HistoryAnswer
    ensures { (result ≡ W.more_answer before burst.now layer.old) × (layer.new ≡ W.more_layer before burst.now layer.old) }
{
    match check_burst(before, burst.len(), layer.len()) {
        Ok(()) => HistoryAnswer {
            number: numbers::DONE,
            history: run(before, burst, layer),
        },
        Err(why) => HistoryAnswer {
            number: u32::from(why),
            history: before,
        },
    }
}

// ---- the end

// The block under way as a leaf; zero if there is none.
fn open_leaf(history: History) -> [u8; 32]
    requires { history.block.tail_size ≡ history.block.total % 64 }
    ensures { result ≡ G.open_leaf history }
{
    if history.length % 16384 == 0 {
        return [0u8; 32];
    }
    let block = history.block;
    running::hash_of(block)
}

// The parent of node i, which is under way: a right child has its finished sibling, a left one padding.
fn parent(i: usize, left: [u8; 32], child: [u8; 32], pad: [u8; 32]) -> [u8; 32]
    ensures { result ≡ cond (eqb (i % 2) 1) (pair_hash left child) (pair_hash child pad) }
{
    if i % 2 == 1 {
        return pair(left, child);
    }
    pair(child, pad)
}

// The node k layers above leaf i, which is under way.
fn open_above(nodes: &[u8], leaf: [u8; 32], i: usize, k: usize) -> [u8; 32]
    requires { 32 * k ≤ length nodes.now }
    ensures { result ≡ G.open_above nodes.now leaf i k }
{
    let mut child = leaf;
    let mut pad = [0u8; 32];
    let mut j = i;
    for l in 0..k {
        let left = hash_at(nodes, 32 * l);
        let up = parent(j, left, child, pad);
        child = up;
        let wider = pair(pad, pad);
        pad = wider;
        j = j / 2;
    }
    child
}

// The node of layer k over the last byte.
fn last_node(history: History, k: usize) -> [u8; 32]
    requires { (history.block.tail_size ≡ history.block.total % 64) × (k < G.node_count) }
    ensures { result ≡ G.last_node history k }
{
    let n = history.length as usize;
    let size = 16384 << k;
    let nodes = history.nodes;
    if n % size == 0 {
        return hash_at(&nodes, 32 * k);
    }
    let leaf = open_leaf(history);
    open_above(&nodes, leaf, n / 16384, k)
}

// The pieces root, from the state alone; zero for an empty history.
fn root_of(history: History) -> [u8; 32]
    requires { (history.block.tail_size ≡ history.block.total % 64) × (history.length ≤ longest_file) }
    ensures { result ≡ G.root_of history }
{
    let n = history.length as usize;
    if n == 0 {
        return [0u8; 32];
    }
    last_node(history, height(block_count(n)))
}

// How many bytes the piece layer has.
fn layer_size(n: usize, plen: usize) -> usize
    requires { n ≤ longest_file }
    ensures { result ≡ W.layer_bytes n plen }
{
    if has_layer(n, plen) {
        return 32 * piece_count(n, plen);
    }
    0
}

// Whether the history may end, with a layer of m bytes: else 9 or 11.
fn check_end(history: History, m: usize) -> Result<(), Refused>
    ensures { code_of result ≡ W.end_number history m }
{
    if !is_possible(history) {
        return Err(Refused::Unusable);
    }
    if m < layer_size(history.length as usize, history.piece_length as usize) {
        return Err(Refused::NoRoom);
    }
    Ok(())
}

// Writes the last piece's hash, if there is a layer.
fn put_last(history: History, layer: &mut [u8])
    requires { Possible history × (W.layer_size history ≤ length layer.old) }
    ensures { layer.new ≡ W.with_last history layer.old }
{
    let n = history.length as usize;
    let plen = history.piece_length as usize;
    if has_layer(n, plen) {
        let p = piece_layer(plen);
        let hash = last_node(history, p);
        let at = layer_size(n, plen) - 32;
        put_hash(layer, at, hash);
    }
}

// N, the pieces root and the piece layer's size; 9 for counts that no bursts give, 11 if the layer doesn't fit.
// The state is a copy: it may go on.
pub fn end(history: History, layer: &mut [u8]) -> HistoryEnd
    ensures { (result ≡ W.end_answer history layer.old) × (layer.new ≡ W.end_layer history layer.old) }
{
    match check_end(history, layer.len()) {
        Ok(()) => {
            put_last(history, layer);
            let size = layer_size(history.length as usize, history.piece_length as usize);
            HistoryEnd {
                number: numbers::DONE,
                length: history.length,
                root: root_of(history),
                layer_size: size as u64,
            }
        }
        Err(why) => HistoryEnd {
            number: u32::from(why),
            length: 0,
            root: [0u8; 32],
            layer_size: 0,
        },
    }
}
