// A subtree over a run of hashes, worked out in a room as a heap: its leaves are copied, then each hash is the parent of two. And the
// root over a piece layer, by such heaps.
#![tactic(auto)]

ghost use Rattle.std.specs.Prelude.{◌≡◌, true, List, ℕ, ◌+◌, ◌*◌, ◌^◌, ◌≤◌, ◌<◌, length};
ghost use Rattle.octets.specs.Octets.{cut, same};
ghost use Rattle.tree.specs.Geometry as G;
ghost use Rattle.tree.specs.Geometry.{block_count, is_piece_length, piece_layer, has_layer};
ghost use Rattle.tree.specs.Values.{node, pad_value, layer_root};
ghost use Rattle.heaps.specs.Heaps.{Over, Worked, raised};

use octets::{hash_at, put_hash};
use sha256::pair;
use tree::geometry::{block_count, covering, height, piece_layer};

// Hash i of a run, and `pad` after its last one.
fn leaf_in(run: &[u8], pad: [u8; 32], i: usize) -> [u8; 32]
    ensures { (length result ≡ 32) × ((leaf : ℕ → List ℕ) → Over run.now pad leaf → result ≡ leaf i) }
{
    let c = run.len() / 32;
    if i >= c {
        return pad;
    }
    hash_at(run, 32 * i)
}

// The `leaves` hashes of a run from number `from` on become the leaves of a heap.
fn load(heap: &mut [u8], run: &[u8], pad: [u8; 32], leaves: usize, from: usize)
    requires { (length heap.old ≡ 64 * leaves) × (from + leaves < 2 ^ 64) }
    ensures { (length heap.new ≡ 64 * leaves) × ((leaf : ℕ → List ℕ) → Over run.now pad leaf → (y : ℕ) → y < leaves → cut heap.new (32 * (leaves + y)) 32 ≡ leaf (from + y)) }
{
    for y in 0..leaves {
        let h = leaf_in(run, pad, from + y);
        put_hash(heap, 32 * (leaves + y), h);
    }
}

// The heap over the `leaves` hashes of a run from number `index` * `leaves` on.
pub fn work(heap: &mut [u8], run: &[u8], pad: [u8; 32], leaves: usize, index: usize)
    requires { (length heap.old ≡ 64 * leaves) × (1 ≤ leaves) × (index * leaves + leaves < 2 ^ 64) }
    ensures { (leaf : ℕ → List ℕ) → Over run.now pad leaf → Worked leaf leaves index heap.new }
{
    let from = index * leaves;
    load(heap, run, pad, leaves, from);
    lanes::runs::fill_heap(heap, leaves);
}

// The node above them.
fn top(heap: &mut [u8], run: &[u8], pad: [u8; 32], leaves: usize, index: usize) -> [u8; 32]
    requires { (length heap.old ≡ 64 * leaves) × (1 ≤ leaves) × (index * leaves + leaves < 2 ^ 64) }
    ensures { (leaf : ℕ → List ℕ) (k : ℕ) → Over run.now pad leaf → leaves ≡ 2 ^ k → result ≡ node leaf k index }
{
    work(heap, run, pad, leaves, index);
    hash_at(&*heap, 32)
}

// The node k layers above leaves that are all v.
fn raise(v: [u8; 32], k: usize) -> [u8; 32]
    ensures { result ≡ raised v k }
{
    let mut h = v;
    for i in 0..k {
        let above = pair(h, h);
        h = above;
    }
    h
}

// The node k layers above a run of hashes, number j, by heaps over at most 2^e of them; past the run each hash is `pad`.
fn run_node(room: &mut [u8], e: usize, run: &[u8], pad: [u8; 32], k: usize, j: usize) -> [u8; 32]
    requires { (length room.old ≡ 64 * 2 ^ e) × ((j + 1) * 2 ^ k < 2 ^ 64) }
    ensures { (leaf : ℕ → List ℕ) → Over run.now pad leaf → result ≡ node leaf k j }
{
    let c = covering(run.len() / 32, k);
    if j >= c {
        return raise(pad, k);
    }
    if k <= e {
        let m = 1 << k;
        let size = 64 * m;
        return top(&mut room[0..size], run, pad, m, j);
    }
    let d = k - 1;
    let j2 = 2 * j;
    let j3 = j2 + 1;
    let l = run_node(room, e, run, pad, d, j2);
    let r = run_node(room, e, run, pad, d, j3);
    pair(l, r)
}

// A layer's root is worked out by heaps over 2^6 hashes. Their room is small: it may lie on the stack once for each folder above the file.
const HEAP_LAYERS: usize = 6;

const HEAP_SIZE: usize = 4096;

// Whether the layer of a file of `size` bytes gives its root. `pad` is the padding value of the piece layer.
pub fn gives_root(layer: &[u8], pad: [u8; 32], plen: usize, size: usize, root: &[u8]) -> bool
    requires { (is_piece_length plen ≡ true) × (has_layer size plen ≡ true) × (length root.now ≡ 32) × (pad ≡ pad_value (piece_layer plen)) }
    ensures { result ≡ same (layer_root layer.now (piece_layer plen) (G.height (block_count size))) root.now }
{
    let p = piece_layer(plen);
    let b = block_count(size);
    let h = height(b);
    let k = h - p;
    let mut room = [0u8; HEAP_SIZE];
    let worked = run_node(&mut room, HEAP_LAYERS, layer, pad, k, 0);
    let mine = hash_at(root, 0);
    octets::same(worked, mine)
}
