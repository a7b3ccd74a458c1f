// The marks of a store's blocks: written, asked for, cleared, and gathered in the bitfield of the pieces.
#![tactic(auto)]

ghost use Rattle.std.specs.Prelude.{◌≡◌, true, ◌+◌, ◌*◌, ◌^◌, ◌≤◌, ◌<◌, length};
ghost use Rattle.octets.specs.Octets.{pasted};
ghost use Rattle.tree.specs.Geometry.{piece_count};
ghost use Rattle.cells.specs.Entries.{one_if};
ghost use Rattle.limits.specs.Limits.{tallest_tree};
ghost use Rattle.store.specs.Store.{usable, file_length, piece_length, height_of};
ghost use Rattle.numbers.specs.Refusals.{answer_of, code_of};
ghost use Rattle.marks.specs.Marks as M;

use numbers::{Answer, Refused};
use store::{blocks_of, file_length, is_usable, piece_length_of, positions_of};
use tree::geometry::{ceil_div, piece_count, piece_layer, piece_size};

// The byte behind the cells, where block 0's mark stands.
pub fn marks_start(store: &[u8]) -> usize
    requires { usable store.now ≡ true }
    ensures { result ≡ M.marks_start store.now }
{
    let p = positions_of(store);
    31 + 33 * p
}

// The marks of `count` blocks from `block` on become `mark`.
pub fn put_marks(store: &mut [u8], block: usize, count: usize, mark: u8)
    requires { (usable store.old ≡ true) × (block + count ≤ 2 ^ height_of store.old) }
    ensures { store.new ≡ M.marks_put store.old block count mark }
{
    let start = marks_start(store);
    let at = start + block;
    store[at..at + count].fill(mark);
}

// Whether a block is marked.
fn is_marked(store: &[u8], block: usize) -> bool
    requires { (usable store.now ≡ true) × (block < 2 ^ height_of store.now) }
    ensures { result ≡ M.marked_at store.now block }
{
    let start = marks_start(store);
    store[start + block] == 1
}

// Whether the file has the block: else 9 or 3.
fn block_there(store: &[u8], block: usize) -> Result<(), Refused>
    ensures { code_of result ≡ M.block_there store.now block }
{
    if !is_usable(store) {
        return Err(Refused::Unusable);
    }
    if block < blocks_of(store) {
        return Ok(());
    }
    Err(Refused::RuleBroken)
}

fn cleared(store: &mut [u8], block: usize) -> Result<u64, Refused>
    ensures answer { answer_of result ≡ M.clear_answer store.old block }
    ensures left { store.new ≡ M.clear_after store.old block }
{
    block_there(store, block)?;
    put_marks(store, block, 1, 0);
    Ok(0)
}

// Clears a block's mark, whatever stood there; a refusal changes nothing.
pub fn clear_mark(store: &mut [u8], block: usize) -> Answer
    ensures { (result ≡ M.clear_answer store.old block) × (store.new ≡ M.clear_after store.old block) }
{
    Answer::from(cleared(store, block))
}

fn marked(store: &[u8], block: usize) -> Result<u64, Refused>
    ensures { answer_of result ≡ M.marked_answer store.now block }
{
    block_there(store, block)?;
    let set = is_marked(store, block);
    Ok(u64::from(set))
}

// Whether a block is marked: the count is 1 or 0.
pub fn marked_block(store: &[u8], block: usize) -> Answer
    ensures { result ≡ M.marked_answer store.now block }
{
    Answer::from(marked(store, block))
}

// ---- the blocks of a piece

// How many blocks a piece has, but for the last.
pub fn each_piece(store: &[u8]) -> usize
    requires { usable store.now ≡ true }
    ensures { result ≡ M.each_piece store.now }
{
    let plen = piece_length_of(store);
    let p = piece_layer(plen);
    1 << p
}

// The first block of a piece of the file.
pub fn first_block(store: &[u8], piece: usize) -> usize
    requires { (usable store.now ≡ true) × (piece < piece_count (file_length store.now) (piece_length store.now)) }
    ensures { result ≡ M.first_block store.now piece }
{
    let each = each_piece(store);
    each * piece
}

// How many blocks a piece of the file covers.
pub fn blocks_in(store: &[u8], piece: usize) -> usize
    requires { usable store.now ≡ true }
    ensures { result ≡ M.blocks_in store.now piece }
{
    let each = each_piece(store);
    let b = blocks_of(store);
    piece_size(b, each, piece)
}

// ---- the bitfield

// Whether `count` blocks from `block` on are all marked, where the marks begin at `start`.
pub fn all_marked(store: &[u8], start: usize, block: usize, count: usize) -> bool
    requires { (usable store.now ≡ true) × (start ≡ M.marks_start store.now) × (block + count ≤ 2 ^ height_of store.now) }
    ensures { result ≡ M.all_marked store.now block count }
{
    let at = start + block;
    for i in 0..count {
        if store[at + i] != 1 {
            return false;
        }
    }
    true
}

// The bit of a piece; 0 past the file's pieces.
fn piece_bit(store: &[u8], piece: usize) -> u8
    requires { usable store.now ≡ true }
    ensures { result ≡ one_if (M.piece_marked store.now piece) }
{
    let size = file_length(store);
    let plen = piece_length_of(store);
    let c = piece_count(size, plen);
    if piece >= c {
        return 0;
    }
    let start = marks_start(store);
    let first = first_block(store, piece);
    let n = blocks_in(store, piece);
    u8::from(all_marked(store, start, first, n))
}

// The byte for eight pieces, the first of them in the highest bit.
fn field_byte(store: &[u8], piece: usize) -> u8
    requires { (usable store.now ≡ true) × (piece ≤ 8 * 2 ^ tallest_tree) }
    ensures { result ≡ M.field_bits store.now piece 8 }
{
    let mut x = 0;
    for i in 0..8 {
        let bit = piece_bit(store, piece + i);
        x = x * 2 + bit;
    }
    x
}

// Writes the first n bytes of the bitfield.
fn write_field(store: &[u8], out: &mut [u8], n: usize)
    requires { (usable store.now ≡ true) × (n ≤ length out.old) × (n ≤ 2 ^ tallest_tree) }
    ensures { out.new ≡ pasted out.old 0 (M.field_bytes store.now n) }
{
    for i in 0..n {
        let piece = 8 * i;
        let x = field_byte(store, piece);
        out[i] = x;
    }
}

// Writes the bitfield, and gives its size.
fn field(store: &[u8], out: &mut [u8]) -> Result<u64, Refused>
    ensures answer { answer_of result ≡ M.field_answer store.now out.old }
    ensures left { out.new ≡ M.field_after store.now out.old }
{
    if !is_usable(store) {
        return Err(Refused::Unusable);
    }
    let length = file_length(store);
    let plen = piece_length_of(store);
    let c = piece_count(length, plen);
    let size = ceil_div(c, 8);
    if out.len() < size {
        return Err(Refused::NoRoom);
    }
    write_field(store, out, size);
    Ok(size as u64)
}

// Writes the bitfield of the pieces whose blocks are all marked, and gives its size; 11 where the output is too short.
pub fn bitfield(store: &[u8], out: &mut [u8]) -> Answer
    ensures { (result ≡ M.field_answer store.now out.old) × (out.new ≡ M.field_after store.now out.old) }
{
    Answer::from(field(store, out))
}
