// Loading a piece layer into a store, judging a block, a piece, and a piece of a hybrid.
#![tactic(auto)]

ghost use Rattle.std.specs.Prelude.{◌≡◌, true, cond, ◌+◌, ◌-◌, ◌≤◌, ◌<◌, length};
ghost use Rattle.numbers.specs.Numbers.{judged, no_anchor};
ghost use Rattle.numbers.specs.Refusals.{answer_of, code_of};
ghost use Rattle.octets.specs.Octets.{same};
ghost use Rattle.sha256.specs.Sha256.{sha256};
ghost use Rattle.tree.specs.Geometry.{node_number, piece_count};
ghost use Rattle.tree.specs.Values.{leaf_of, layer_leaf};
ghost use Rattle.cells.specs.Cells.{Room, held_at, hash_at};
ghost use Rattle.cells.specs.Entries.{put_all, fresh};
ghost use Rattle.store.specs.Store.{usable, file_length, height_of, piece_length};
ghost use Rattle.marks.specs.Marks as M;
ghost use Rattle.settling.specs.Span.{Fit};
ghost use Rattle.settling.specs.Subtree.{run_leaf};
ghost use Rattle.pieces.specs.Pieces as P;
ghost use Rattle.pieces.specs.Asks.{Layered, PieceIn};
ghost use Rattle.pieces.specs.Hybrid.{v1_number, hybrid_number, hybrid_answer, hybrid_after};

use marks::{blocks_in, first_block, put_marks};
use numbers::{Answer, Refused};
use settling::{Seen, look_data, look_run, write_run};
use store::{blocks_of, file_length, height_of, is_usable, piece_length_of};
use tree::geometry::{block_size, has_layer, node_number, piece_count, piece_layer, piece_size};
use tree::values::pad_value;

// 6 for a position that is not held.
fn anchored(store: &[u8], top: usize) -> Result<(), Refused>
    requires { Room (top + 1) store.now }
    ensures { code_of result ≡ cond (held_at store.now top) 0 no_anchor }
{
    if cells::held(store, top) {
        return Ok(());
    }
    Err(Refused::NoAnchor)
}

// 7 or 8 for position `top`, which is held, by what was worked out for it.
fn judge_seen(store: &[u8], top: usize, seen: Seen) -> Result<(), Refused>
    requires { Room (top + 1) store.now }
    ensures { code_of result ≡ judged true (same (hash_at store.now top) seen.hash) seen.agrees }
{
    let mine = cells::hash_of(store, top);
    let alike = octets::same(mine, seen.hash);
    if !alike {
        return Err(Refused::Differs);
    }
    let agrees = seen.agrees;
    if !agrees {
        return Err(Refused::Conflict);
    }
    Ok(())
}

// Position `top` against the subtree over a run of hashes. Nothing is hashed if `top` is not held.
fn judge_run(
    store: &[u8],
    run: &[u8],
    pad: [u8; 32],
    height: usize,
    top: usize,
) -> Result<(), Refused>
    requires { Fit (length store.now) height top 0 }
    ensures { code_of result ≡ P.judged_at store.now (run_leaf run.now pad) height top }
{
    anchored(store, top)?;
    let seen = look_run(store, run, pad, height, top, 0);
    judge_seen(store, top, seen)
}

// Position `top` against the subtree over the blocks of a piece.
fn judge_data(store: &[u8], bytes: &[u8], height: usize, top: usize) -> Result<(), Refused>
    requires { Fit (length store.now) height top 0 }
    ensures { code_of result ≡ P.judged_at store.now (leaf_of bytes.now) height top }
{
    anchored(store, top)?;
    let seen = look_data(store, bytes, height, top, 0);
    judge_seen(store, top, seen)
}

// Leaf `node` against a block. Nothing lies below a leaf that could differ.
fn judge_leaf(store: &[u8], bytes: &[u8], node: usize) -> Result<(), Refused>
    requires { Room (node + 1) store.now }
    ensures { code_of result ≡ judged (held_at store.now node) (same (hash_at store.now node) (sha256 bytes.now)) true }
{
    anchored(store, node)?;
    let hash = sha256::hash(bytes);
    judge_seen(store, node, Seen { hash, agrees: true })
}

// ---- a piece layer

// 6, 7 or 8 of a layer of the right size.
fn judge_layer(store: &[u8], layer: &[u8]) -> Result<(), Refused>
    requires { Layered store.now }
    ensures { code_of result ≡ P.judged_at store.now (layer_leaf layer.now (P.layer_of_pieces store.now)) (height_of store.now - P.layer_of_pieces store.now) 1 }
{
    let h = height_of(store);
    let plen = piece_length_of(store);
    let p = piece_layer(plen);
    let pad = pad_value(p);
    let k = h - p;
    judge_run(store, layer, pad, k, 1)
}

// Layer p and all above it become held; how many of the positions were not.
fn write_layer(store: &mut [u8], layer: &[u8]) -> u64
    requires { Layered store.old }
    ensures { (result ≡ fresh store.old (P.layer_settled store.old layer.now)) × (store.new ≡ put_all store.old (P.layer_settled store.old layer.now)) }
{
    let h = height_of(store);
    let plen = piece_length_of(store);
    let p = piece_layer(plen);
    let k = h - p;
    let filled = write_run(store, layer, pad_value(p), k, 1, 0);
    filled.new
}

// Why the layer is refused; nothing is written. piece_number's tests are alike, but of other facts: one function over both would be no plainer.
fn layer_number(store: &[u8], layer: &[u8]) -> Result<(), Refused>
    ensures { code_of result ≡ P.layer_number store.now layer.now }
{
    if !is_usable(store) {
        return Err(Refused::Unusable);
    }
    let n = file_length(store);
    let plen = piece_length_of(store);
    if !has_layer(n, plen) {
        return Err(Refused::RuleBroken);
    }
    let c = piece_count(n, plen);
    if layer.len() != 32 * c {
        return Err(Refused::WrongSize);
    }
    judge_layer(store, layer)
}

fn loaded(store: &mut [u8], layer: &[u8]) -> Result<u64, Refused>
    ensures answer { answer_of result ≡ P.layer_answer store.old layer.now }
    ensures left { store.new ≡ P.layer_after store.old layer.now }
{
    layer_number(store, layer)?;
    let new = write_layer(store, layer);
    Ok(new)
}

// Loads the file's piece layer, or refuses it and leaves the store as it was. The count is the positions newly held.
pub fn load_layer(store: &mut [u8], layer: &[u8]) -> Answer
    ensures { (result ≡ P.layer_answer store.old layer.now) × (store.new ≡ P.layer_after store.old layer.now) }
{
    Answer::from(loaded(store, layer))
}

// ---- a block

// Why a block's bytes are refused.
fn block_number(store: &[u8], block: usize, bytes: &[u8]) -> Result<(), Refused>
    ensures { code_of result ≡ P.block_number store.now block bytes.now }
{
    if !is_usable(store) {
        return Err(Refused::Unusable);
    }
    if block >= blocks_of(store) {
        return Err(Refused::RuleBroken);
    }
    let n = file_length(store);
    let size = block_size(n, block);
    if bytes.len() != size {
        return Err(Refused::WrongSize);
    }
    let h = height_of(store);
    let q = node_number(h, 0, block);
    judge_leaf(store, bytes, q)
}

fn block_judged(store: &mut [u8], block: usize, bytes: &[u8]) -> Result<u64, Refused>
    ensures answer { answer_of result ≡ P.block_answer store.old block bytes.now }
    ensures left { store.new ≡ P.block_after store.old block bytes.now }
{
    block_number(store, block, bytes)?;
    put_marks(store, block, 1, 1);
    Ok(0)
}

// Judges a block's bytes against the leaf held for it, and marks the block on 0. Nothing becomes held, so the count is 0.
pub fn judge_block(store: &mut [u8], block: usize, bytes: &[u8]) -> Answer
    ensures { (result ≡ P.block_answer store.old block bytes.now) × (store.new ≡ P.block_after store.old block bytes.now) }
{
    Answer::from(block_judged(store, block, bytes))
}

// ---- a piece

// The layer of the node that a piece is judged against: layer p, or the root's if the file has no piece layer.
pub fn piece_height(store: &[u8]) -> usize
    requires { 64 ≤ length store.now }
    ensures { result ≡ P.piece_height store.now }
{
    let n = file_length(store);
    let plen = piece_length_of(store);
    if has_layer(n, plen) {
        return piece_layer(plen);
    }
    height_of(store)
}

// 6, 7 or 8 of a piece of the right size.
fn judge_node(store: &[u8], piece: usize, bytes: &[u8]) -> Result<(), Refused>
    requires { PieceIn store.now piece }
    ensures { code_of result ≡ P.judged_at store.now (leaf_of bytes.now) (P.piece_height store.now) (node_number (height_of store.now) (P.piece_height store.now) piece) }
{
    let h = height_of(store);
    let k = piece_height(store);
    let q = node_number(h, k, piece);
    judge_data(store, bytes, k, q)
}

// Why a piece's bytes are refused: 9, 3, 4, 6, 7 or 8.
pub fn piece_number(store: &[u8], piece: usize, bytes: &[u8]) -> Result<(), Refused>
    ensures { code_of result ≡ P.piece_number store.now piece bytes.now }
{
    if !is_usable(store) {
        return Err(Refused::Unusable);
    }
    let n = file_length(store);
    let plen = piece_length_of(store);
    let c = piece_count(n, plen);
    if piece >= c {
        return Err(Refused::RuleBroken);
    }
    let size = piece_size(n, plen, piece);
    if bytes.len() != size {
        return Err(Refused::WrongSize);
    }
    judge_node(store, piece, bytes)
}

// Marks the blocks of a piece of the file.
fn mark_piece(store: &mut [u8], piece: usize)
    requires { (usable store.old ≡ true) × (piece < piece_count (file_length store.old) (piece_length store.old)) }
    ensures { store.new ≡ M.marks_put store.old (M.first_block store.old piece) (M.blocks_in store.old piece) M.marked }
{
    let first = first_block(store, piece);
    let n = blocks_in(store, piece);
    put_marks(store, first, n, 1);
}

fn piece_judged(store: &mut [u8], piece: usize, bytes: &[u8]) -> Result<u64, Refused>
    ensures answer { answer_of result ≡ P.piece_answer store.old piece bytes.now }
    ensures left { store.new ≡ P.piece_after store.old piece bytes.now }
{
    piece_number(store, piece, bytes)?;
    mark_piece(store, piece);
    Ok(0)
}

// Judges a piece's bytes against the node held for it, and marks its blocks on 0. Nothing becomes held, so the count is 0.
pub fn judge_piece(store: &mut [u8], piece: usize, bytes: &[u8]) -> Answer
    ensures { (result ≡ P.piece_answer store.old piece bytes.now) × (store.new ≡ P.piece_after store.old piece bytes.now) }
{
    Answer::from(piece_judged(store, piece, bytes))
}

// ---- a piece of a hybrid

// Why the v1 half refuses a piece that has at most a piece's bytes: 4 where the zeros behind it would pass the piece length, 7 where SHA-1 of both is not v1.
fn v1_number(store: &[u8], bytes: &[u8], v1: [u8; 20], zeros: usize) -> Result<(), Refused>
    requires { (64 ≤ length store.now) × (length bytes.now ≤ piece_length store.now) }
    ensures { code_of result ≡ v1_number store.now bytes.now v1 zeros }
{
    let plen = piece_length_of(store);
    let room = plen - bytes.len();
    if room < zeros {
        return Err(Refused::WrongSize);
    }
    let hash = sha_1::hash_with_zeros(bytes, zeros);
    let alike = sha_1::same(hash, v1);
    if !alike {
        return Err(Refused::Differs);
    }
    Ok(())
}

// Why a hybrid's piece is refused: the v2 answer first.
fn hybrid_number(
    store: &[u8],
    piece: usize,
    bytes: &[u8],
    v1: [u8; 20],
    zeros: usize,
) -> Result<(), Refused>
    ensures { code_of result ≡ hybrid_number store.now piece bytes.now v1 zeros }
{
    piece_number(store, piece, bytes)?;
    v1_number(store, bytes, v1, zeros)
}

fn hybrid_judged(
    store: &mut [u8],
    piece: usize,
    bytes: &[u8],
    v1: [u8; 20],
    zeros: usize,
) -> Result<u64, Refused>
    ensures answer { answer_of result ≡ hybrid_answer store.old piece bytes.now v1 zeros }
    ensures left { store.new ≡ hybrid_after store.old piece bytes.now v1 zeros }
{
    hybrid_number(store, piece, bytes, v1, zeros)?;
    mark_piece(store, piece);
    Ok(0)
}

// Judges a piece's bytes by both halves of a hybrid, the v1 half with so many zeros behind them, and marks its blocks on 0. The count is 0.
pub fn judge_hybrid_piece(
    store: &mut [u8],
    piece: usize,
    bytes: &[u8],
    v1: [u8; 20],
    zeros: usize,
) -> Answer
    ensures { (result ≡ hybrid_answer store.old piece bytes.now v1 zeros) × (store.new ≡ hybrid_after store.old piece bytes.now v1 zeros) }
{
    Answer::from(hybrid_judged(store, piece, bytes, v1, zeros))
}
