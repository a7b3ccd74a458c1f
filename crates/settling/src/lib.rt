// What a run of hashes, a piece's blocks and a path of uncles settle in a store: worked out, looked at, written.
#![tactic(auto)]

ghost use Rattle.std.specs.Prelude.{List, ℕ, ◌≡◌, ◌&&◌, ◌+◌, ◌*◌, ◌^◌, ◌≤◌, ◌<◌, length};
ghost use Rattle.tree.specs.Values.{node, leaf_of};
ghost use Rattle.heaps.specs.Heaps.{hash_in, Parents, Worked};
ghost use Rattle.cells.specs.Entries.{agrees, put_all, fresh};
ghost use Rattle.settling.specs.Subtree.{subtree, run_leaf, Loaded, Heaped};
ghost use Rattle.settling.specs.Path.{sibling, parent_value, ancestor, risen, path};
ghost use Rattle.settling.specs.Span.{Fit, Way, room_size};

use cells::{add_at, agrees_at};
use heaps::work;
use lanes::hashes::{hash8, put8};
use lanes::runs::fill_heap;
use octets::{hash_at, put_hash};
use sha256::pair;
use tree::values::leaf_of;

// A subtree over up to 2^9 leaves is worked out in one heap, and each of its hashes once; a higher one by such parts.
const ROOM_LAYERS: usize = 9;

pub const ROOM_SIZE: usize = 32768;

// The value at the top, and whether no held position on the way there differs from the values worked out.
#[derive(Clone, Copy)]
pub struct Seen {
    pub hash: [u8; 32],
    pub agrees: bool,
}

// The value at the top, and how many positions became held.
#[derive(Clone, Copy)]
pub struct Filled {
    pub hash: [u8; 32],
    pub new: u64,
}

// One value: written where it is used, && splits each of the four proofs in two.
fn all_three(a: bool, b: bool, c: bool) -> bool
    ensures { result ≡ (a && b && c) }
{
    a && b && c
}

// Compares the subtree of `height` whose top is hash x of a heap with what is held, from position `top` on.
fn look_heap(store: &[u8], heap: &[u8], height: usize, top: usize, x: usize) -> bool
    requires { Fit (length store.now) height top 0 × Parents heap.now × (1 ≤ x) × (32 * ((x + 1) * 2 ^ height) ≤ length heap.now) }
    ensures { result ≡ agrees store.now (subtree (hash_in heap.now) height top x) }
{
    let h = hash_at(heap, 32 * x);
    let o = agrees_at(store, top, h);
    if height == 0 {
        return o;
    }
    let d = height - 1;
    let n2 = 2 * top;
    let x2 = 2 * x;
    let n3 = n2 + 1;
    let x3 = x2 + 1;
    let l = look_heap(store, heap, d, n2, x2);
    let r = look_heap(store, heap, d, n3, x3);
    all_three(l, r, o)
}

// Every position of that subtree becomes held; how many of them were not.
fn write_heap(store: &mut [u8], heap: &[u8], height: usize, top: usize, x: usize) -> u64
    requires { Fit (length store.old) height top 0 × Parents heap.now × (1 ≤ x) × (32 * ((x + 1) * 2 ^ height) ≤ length heap.now) }
    ensures { (result ≡ fresh store.old (subtree (hash_in heap.now) height top x)) × (store.new ≡ put_all store.old (subtree (hash_in heap.now) height top x)) }
{
    let h = hash_at(heap, 32 * x);
    if height == 0 {
        return add_at(store, top, h);
    }
    let d = height - 1;
    let n2 = 2 * top;
    let x2 = 2 * x;
    let n3 = n2 + 1;
    let x3 = x2 + 1;
    let l = write_heap(store, heap, d, n2, x2);
    let r = write_heap(store, heap, d, n3, x3);
    let a = add_at(store, top, h);
    l + r + a
}

// What stands at the leaves of a subtree.
trait Leaves {
    ghost leaf: { Self → ℕ → List ℕ };

    // Works out the heap over the m leaves from number j * m on.
    fn fill(&self, heap: &mut [u8], m: usize, j: usize)
        requires { (length heap.old ≡ 64 * m) × (1 ≤ m) × (j * m + m + 8 < 2 ^ 64) }
        ensures { Worked (leaf self.now) m j heap.new };
}

// The hashes of a run, and `pad` behind its last one.
#[derive(Clone, Copy)]
struct Run<'a> {
    run: &'a [u8],
    pad: [u8; 32],
}

impl Leaves for Run<'_> {
    ghost leaf = { λ l. run_leaf l.run.now l.pad };

    fn fill(&self, heap: &mut [u8], m: usize, j: usize) {
        work(heap, self.run, self.pad, m, j);
    }
}

// Works out the subtree over the 2^`height` = m leaves from number `index` * m on in a heap, and compares it.
fn look_leaves<L: Leaves>(
    store: &[u8],
    leaves: &L,
    heap: &mut [u8],
    m: usize,
    height: usize,
    top: usize,
    index: usize,
) -> Seen
    requires { Fit (length store.now) height top index × (m ≡ 2 ^ height) × (length heap.old ≡ 64 * m) }
    ensures { (result.hash ≡ node (L.leaf leaves.now) height index) × (result.agrees ≡ agrees store.now (subtree (L.leaf leaves.now) height top index)) × Worked (L.leaf leaves.now) m index heap.new }
{
    leaves.fill(heap, m, index);
    let hash = hash_at(&*heap, 32);
    let agrees = look_heap(store, &*heap, height, top, 1);
    Seen { hash, agrees }
}

// Looking and writing stay two functions: one is lent the store as `&`, the other as `&mut`, and they give other things back.
// The subtree over such a part of a run, worked out in the heap; and every position of it becomes held.
fn write_part(
    store: &mut [u8],
    run: &[u8],
    pad: [u8; 32],
    heap: &mut [u8],
    m: usize,
    height: usize,
    top: usize,
    index: usize,
) -> Filled
    requires { Fit (length store.old) height top index × (m ≡ 2 ^ height) × (length heap.old ≡ 64 * m) }
    ensures { (result.hash ≡ node (run_leaf run.now pad) height index) × ((result.new ≡ fresh store.old (subtree (run_leaf run.now pad) height top index)) × (store.new ≡ put_all store.old (subtree (run_leaf run.now pad) height top index))) }
{
    work(heap, run, pad, m, index);
    let hash = hash_at(&*heap, 32);
    let new = write_heap(store, &*heap, height, top, 1);
    Filled { hash, new }
}

// Works out the subtree of `height` whose top is `top`, over such leaves, and compares it with what is held: in a room
// for the heap over ROOM_LAYERS layers, where a subtree that is not higher stays; above those layer by layer.
fn look<L: Leaves>(
    store: &[u8],
    leaves: &L,
    room: &mut [u8],
    height: usize,
    top: usize,
    index: usize,
) -> Seen
    requires { Fit (length store.now) height top index × (length room.old ≡ room_size) }
    ensures { (result.hash ≡ node (L.leaf leaves.now) height index) × (result.agrees ≡ agrees store.now (subtree (L.leaf leaves.now) height top index)) × Heaped (L.leaf leaves.now) height index room.new }
{
    if height <= ROOM_LAYERS {
        let m = 1 << height;
        let size = 64 * m;
        return look_leaves(store, leaves, &mut room[0..size], m, height, top, index);
    }
    let d = height - 1;
    let n2 = 2 * top;
    let j2 = 2 * index;
    let n3 = n2 + 1;
    let j3 = j2 + 1;
    let l = look(store, leaves, room, d, n2, j2);
    let r = look(store, leaves, room, d, n3, j3);
    let lh = l.hash;
    let rh = r.hash;
    let h = pair(lh, rh);
    let o = agrees_at(store, top, h);
    let all = all_three(l.agrees, r.agrees, o);
    Seen {
        hash: h,
        agrees: all,
    }
}

// What `look` finds of a run of hashes.
pub fn look_parts(
    store: &[u8],
    run: &[u8],
    pad: [u8; 32],
    room: &mut [u8],
    height: usize,
    top: usize,
    index: usize,
) -> Seen
    requires { Fit (length store.now) height top index × (length room.old ≡ room_size) }
    ensures { (result.hash ≡ node (run_leaf run.now pad) height index) × (result.agrees ≡ agrees store.now (subtree (run_leaf run.now pad) height top index)) × Heaped (run_leaf run.now pad) height index room.new }
{
    let leaves = Run { run, pad };
    look(store, &leaves, room, height, top, index)
}

// What look_parts finds of a run, in a room of its own.
pub fn look_run(
    store: &[u8],
    run: &[u8],
    pad: [u8; 32],
    height: usize,
    top: usize,
    index: usize,
) -> Seen
    requires { Fit (length store.now) height top index }
    ensures { (result.hash ≡ node (run_leaf run.now pad) height index) × (result.agrees ≡ agrees store.now (subtree (run_leaf run.now pad) height top index)) }
{
    let mut room = [0u8; ROOM_SIZE];
    look_parts(store, run, pad, &mut room, height, top, index)
}

// ---- the blocks of a piece's bytes

// Eight leaves of a heap at a time, hashed side by side, while eight whole blocks are left from number `from` on; how many leaves it has then.
fn load_eights(heap: &mut [u8], bytes: &[u8], m: usize, from: usize) -> usize
    requires { (length heap.old ≡ 64 * m) × (from + m + 8 < 2 ^ 64) }
    ensures { Loaded (leaf_of bytes.now) m from result heap.new }
{
    let blocks = bytes.len() / 16384;
    for i in 0..m / 8 {
        let y = 8 * i;
        if blocks < from + y + 8 {
            return y;
        }
        let at = 16384 * (from + y);
        let end = at + 131072;
        let p = hash8(&bytes[at..end]);
        put8(heap, 32 * (m + y), p);
    }
    8 * (m / 8)
}

// The leaves from number c on, one by one; past the bytes they are padding.
fn load_rest(heap: &mut [u8], bytes: &[u8], m: usize, from: usize, c: usize)
    requires { Loaded (leaf_of bytes.now) m from c heap.old × (from + m < 2 ^ 64) }
    ensures { Loaded (leaf_of bytes.now) m from m heap.new }
{
    for y in c..m {
        let h = leaf_of(bytes, from + y);
        put_hash(heap, 32 * (m + y), h);
    }
}

// The blocks of a piece's bytes.
#[derive(Clone, Copy)]
struct Blocks<'a> {
    bytes: &'a [u8],
}

impl Leaves for Blocks<'_> {
    ghost leaf = { λ l. leaf_of l.bytes.now };

    fn fill(&self, heap: &mut [u8], m: usize, j: usize) {
        let from = j * m;
        let c = load_eights(heap, self.bytes, m, from);
        load_rest(heap, self.bytes, m, from, c);
        fill_heap(heap, m);
    }
}

// What `look` finds of a piece's bytes, in a room of its own.
pub fn look_data(store: &[u8], bytes: &[u8], height: usize, top: usize, index: usize) -> Seen
    requires { Fit (length store.now) height top index }
    ensures { (result.hash ≡ node (leaf_of bytes.now) height index) × (result.agrees ≡ agrees store.now (subtree (leaf_of bytes.now) height top index)) }
{
    let mut room = [0u8; ROOM_SIZE];
    let leaves = Blocks { bytes };
    look(store, &leaves, &mut room, height, top, index)
}

// Every position of that subtree over a run becomes held.
fn write_parts(
    store: &mut [u8],
    run: &[u8],
    pad: [u8; 32],
    room: &mut [u8],
    height: usize,
    top: usize,
    index: usize,
) -> Filled
    requires { Fit (length store.old) height top index × (length room.old ≡ room_size) }
    ensures { (result.hash ≡ node (run_leaf run.now pad) height index) × ((result.new ≡ fresh store.old (subtree (run_leaf run.now pad) height top index)) × (store.new ≡ put_all store.old (subtree (run_leaf run.now pad) height top index))) }
{
    if height <= ROOM_LAYERS {
        let m = 1 << height;
        let size = 64 * m;
        return write_part(store, run, pad, &mut room[0..size], m, height, top, index);
    }
    let d = height - 1;
    let n2 = 2 * top;
    let j2 = 2 * index;
    let n3 = n2 + 1;
    let j3 = j2 + 1;
    let l = write_parts(store, run, pad, room, d, n2, j2);
    let r = write_parts(store, run, pad, room, d, n3, j3);
    let lh = l.hash;
    let rh = r.hash;
    let v = pair(lh, rh);
    let a = add_at(store, top, v);
    let t = l.new + r.new + a;
    Filled { hash: v, new: t }
}

// Every position becomes held, in the room where look_parts has worked it out: what stayed there is written from there, not worked out again.
pub fn write_looked(
    store: &mut [u8],
    run: &[u8],
    pad: [u8; 32],
    room: &mut [u8],
    height: usize,
    top: usize,
    index: usize,
) -> Filled
    requires { Fit (length store.old) height top index × (length room.old ≡ room_size) × Heaped (run_leaf run.now pad) height index room.old }
    ensures { (result.hash ≡ node (run_leaf run.now pad) height index) × ((result.new ≡ fresh store.old (subtree (run_leaf run.now pad) height top index)) × (store.new ≡ put_all store.old (subtree (run_leaf run.now pad) height top index))) }
{
    if height <= ROOM_LAYERS {
        let m = 1 << height;
        let size = 64 * m;
        let heap = &room[0..size];
        let hash = hash_at(heap, 32);
        let new = write_heap(store, heap, height, top, 1);
        return Filled { hash, new };
    }
    write_parts(store, run, pad, room, height, top, index)
}

// Every position of that subtree becomes held, in a room of its own.
pub fn write_run(
    store: &mut [u8],
    run: &[u8],
    pad: [u8; 32],
    height: usize,
    top: usize,
    index: usize,
) -> Filled
    requires { Fit (length store.old) height top index }
    ensures { (result.hash ≡ node (run_leaf run.now pad) height index) × ((result.new ≡ fresh store.old (subtree (run_leaf run.now pad) height top index)) × (store.new ≡ put_all store.old (subtree (run_leaf run.now pad) height top index))) }
{
    let mut room = [0u8; ROOM_SIZE];
    write_parts(store, run, pad, &mut room, height, top, index)
}

// The position beside `node`.
pub fn sibling(node: usize) -> usize
    requires { node + 1 < 2 ^ 64 }
    ensures { result ≡ sibling node }
{
    if node % 2 == 0 { node + 1 } else { node - 1 }
}

// The parent's value, of v at n and w beside it.
fn above(n: usize, v: [u8; 32], w: [u8; 32]) -> [u8; 32]
    ensures { result ≡ parent_value n v w }
{
    if n % 2 == 0 { pair(v, w) } else { pair(w, v) }
}

// The position `layers` layers above `node`.
pub fn ancestor(node: usize, layers: usize) -> usize
    ensures { result ≡ ancestor layers node }
{
    if layers == 0 {
        return node;
    }
    ancestor(node / 2, layers - 1)
}

// The value `count` layers above `node`, whose value is `value`, by the uncles from `number` on; compared on the way with what is held.
pub fn climb(
    store: &[u8],
    hashes: &[u8],
    number: usize,
    count: usize,
    node: usize,
    value: [u8; 32],
) -> Seen
    requires { Way (length store.now) (length hashes.now) number count node }
    ensures { (result.hash ≡ risen hashes.now number count node value) × (result.agrees ≡ agrees store.now (path hashes.now number count node value)) }
{
    if count == 0 {
        return Seen {
            hash: value,
            agrees: true,
        };
    }
    let d = count - 1;
    let i2 = number + 1;
    let n2 = node / 2;
    let w = hash_at(hashes, 32 * number);
    let x = sibling(node);
    let v2 = above(node, value, w);
    let o1 = agrees_at(store, x, w);
    let o2 = agrees_at(store, n2, v2);
    let r = climb(store, hashes, i2, d, n2, v2);
    let h = r.hash;
    let all = all_three(o1, o2, r.agrees);
    Seen {
        hash: h,
        agrees: all,
    }
}

// Every uncle and every parent on that way becomes held; how many of them were not.
pub fn write_path(
    store: &mut [u8],
    hashes: &[u8],
    number: usize,
    count: usize,
    node: usize,
    value: [u8; 32],
) -> u64
    requires { Way (length store.old) (length hashes.now) number count node }
    ensures { (result ≡ fresh store.old (path hashes.now number count node value)) × (store.new ≡ put_all store.old (path hashes.now number count node value)) }
{
    if count == 0 {
        return 0;
    }
    let d = count - 1;
    let i2 = number + 1;
    let n2 = node / 2;
    let w = hash_at(hashes, 32 * number);
    let x = sibling(node);
    let v2 = above(node, value, w);
    let a1 = add_at(store, x, w);
    let a2 = add_at(store, n2, v2);
    let a = write_path(store, hashes, i2, d, n2, v2);
    a1 + a2 + a
}
