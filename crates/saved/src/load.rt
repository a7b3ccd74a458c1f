// A saved store loaded into a lent buffer.
ghost use Rattle.std.specs.Prelude.{◌≡◌, true, ◌+◌, ◌*◌, ◌≤◌, ◌<◌, length};
ghost use Rattle.cells.specs.Cells.{Room};
ghost use Rattle.cells.specs.Entries.{put_all};
ghost use Rattle.limits.specs.Limits.{longest_file, tallest_tree};
ghost use Rattle.numbers.specs.Refusals.{answer_of, code_of};
ghost use Rattle.store.specs.Store.{Facts, blocks_of, in_tree, positions};
ghost use Rattle.marks.specs.Marks.{marks_start, marks_put};
ghost use Rattle.saved.specs.Form as F;
ghost use Rattle.saved.specs.Saved as S;

use crate::chain::{claimed, root_right};
use crate::form::{block_in, hash_in, index_in, is_formed, layer_in, mark_count, place_count};
use marks::marks_start;
use numbers::{Answer, Refused};
use octets::{hash_at, number_at};
use tree::geometry::{block_count, height, node_number};

// Why bytes are not loaded into a buffer of `size` bytes: 32 without a whole opening record, 10 for its facts, 9 for the room.
pub fn opening_number(size: usize, bytes: &[u8]) -> Result<(), Refused>
    ensures { code_of result ≡ S.opening_number size bytes.now }
{
    if bytes.len() < 45 {
        return Err(Refused::NotSaved);
    }
    if bytes[0] != 1 {
        return Err(Refused::NotSaved);
    }
    let n = number_at(bytes, 1, 8);
    let plen = number_at(bytes, 9, 4);
    // kd_store_size answers by a number: C interface.
    let due = store::store_size(n, plen);
    if due.number != 0 {
        return Err(Refused::FactsOutOfRange);
    }
    if (size as u64) < due.count {
        return Err(Refused::Unusable);
    }
    Ok(())
}

// Whether bytes with a whole opening record in range may be loaded.
pub fn is_sound(bytes: &[u8]) -> bool
    requires { (45 ≤ length bytes.now) × (F.length_in bytes.now ≤ longest_file) }
    ensures { result ≡ S.sound bytes.now }
{
    let n = number_at(bytes, 1, 8);
    let c = block_count(n);
    let h = height(c);
    let ok = is_formed(bytes, h, c);
    if !ok {
        return false;
    }
    let p = place_count(bytes);
    let root = root_right(bytes, h, p);
    if !root {
        return false;
    }
    let k = claimed(bytes, h, c, p);
    k + 1 == p
}

// Position `place` of the bytes becomes held.
pub fn put_place(store: &mut [u8], bytes: &[u8], height: usize, place: usize)
    requires { (height ≤ tallest_tree) × (86 + 41 * place ≤ length bytes.now) × (in_tree height (F.layer_in bytes.now place) (F.index_in bytes.now place) ≡ true) × Room (positions height) store.old }
    ensures { store.new ≡ S.with_place height bytes.now store.old place }
{
    let l = layer_in(bytes, place);
    let i = index_in(bytes, place);
    let hash = hash_in(bytes, place);
    let n = node_number(height, l, i);
    cells::put_at(store, n, hash);
}

// The first `places` positions become held.
fn put_places(store: &mut [u8], bytes: &[u8], height: usize, places: usize)
    requires { (height ≤ tallest_tree) × (45 + 41 * places ≤ length bytes.now) × (F.places_good height bytes.now places ≡ true) × Room (positions height) store.old }
    ensures { store.new ≡ put_all store.old (S.entries_in height bytes.now places) }
{
    for k in 0..places {
        put_place(store, bytes, height, k);
    }
}

// A block's mark is set, where the marks begin at `start`.
fn set_mark(store: &mut [u8], start: usize, block: usize)
    requires { (start ≡ marks_start store.old) × (start + block < length store.old) }
    ensures { store.new ≡ marks_put store.old block 1 1 }
{
    store[start + block] = 1;
}

// The m marks that begin at `at` are set.
fn set_marks(store: &mut [u8], bytes: &[u8], at: usize, m: usize)
    requires { Facts store.old × (F.marks_good (blocks_of store.old) bytes.now at m ≡ true) × (at + 5 * m ≤ length bytes.now) }
    ensures { store.new ≡ S.marks_set store.old bytes.now at m }
{
    let start = marks_start(store);
    for k in 0..m {
        let block = block_in(bytes, at, k);
        set_mark(store, start, block);
    }
}

// The buffer is opened with the facts that the bytes name; then their positions become held and their marks are set: how many positions.
fn write_all(store: &mut [u8], bytes: &[u8]) -> u64
    requires { (S.opening_number (length store.old) bytes.now ≡ 0) × (S.sound bytes.now ≡ true) }
    ensures { (result ≡ F.place_count bytes.now) × (store.new ≡ S.loaded store.old bytes.now) }
{
    let n = number_at(bytes, 1, 8);
    let plen = number_at(bytes, 9, 4);
    let root = hash_at(bytes, 13);
    store::open(store, n, plen, root);
    let c = block_count(n);
    let h = height(c);
    let p = place_count(bytes);
    put_places(store, bytes, h, p);
    let m = mark_count(bytes);
    let at = 45 + 41 * p;
    set_marks(store, bytes, at, m);
    p as u64
}

fn loaded(store: &mut [u8], bytes: &[u8]) -> Result<u64, Refused>
    ensures answer { answer_of result ≡ S.load_answer store.old bytes.now }
    ensures left { store.new ≡ S.load_after store.old bytes.now }
{
    opening_number(store.len(), bytes)?;
    if !is_sound(bytes) {
        return Err(Refused::NotSaved);
    }
    let held = write_all(store, bytes);
    Ok(held)
}

// Loads a saved store: 32 without a whole opening record, 10 for its facts, 9 for the room, 32 where the bytes have not the form or do not chain to the
// root; or 0 and the positions then held. A refusal changes nothing.
pub fn load(store: &mut [u8], bytes: &[u8]) -> Answer
    ensures { (result ≡ S.load_answer store.old bytes.now) × (store.new ≡ S.load_after store.old bytes.now) }
{
    Answer::from(loaded(store, bytes))
}
