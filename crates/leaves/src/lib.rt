// The block hashes of a piece that is right, as the hashes message that teaches them to a store. The store is only looked at.
#![tactic(auto)]

ghost use Rattle.std.specs.Prelude.{◌≡◌, List, ℕ, ◌+◌, ◌*◌, ◌≤◌, length};
ghost use Rattle.octets.specs.Octets.{pasted};
ghost use Rattle.numbers.specs.Refusals.{answer_of};
ghost use Rattle.tree.specs.Values.{leaf_of};
ghost use Rattle.header.specs.Header.{header_size};
ghost use Rattle.leaves.specs.Leaves.{leaf_run, head_of, run_over, leaves_answer, leaves_after};

use header::{HASHES, HEADER_SIZE};
use lanes::hashes::{hash8, put8};
use numbers::{Answer, Refused};
use octets::{put_hash, put_number};
use pieces::{piece_height, piece_number};
use store::facts_root;
use tree::values::leaf_of;

// The 49 bytes before the hashes of a run of leaves without uncles.
fn put_head(out: &mut [u8], root: [u8; 32], index: usize, len: usize)
    requires { header_size ≤ length out.old }
    ensures { out.new ≡ pasted out.old 0 (head_of root (run_over index len)) }
{
    out[0] = HASHES;
    put_hash(out, 1, root);
    put_number(out, 33, 4, 0);
    put_number(out, 37, 4, index);
    put_number(out, 41, 4, len);
    put_number(out, 45, 4, 0);
}

// Eight leaves over a piece's bytes at a time, hashed side by side, from `at` on, while eight whole blocks are left; how many leaves there are then.
fn put_eights(out: &mut [u8], at: usize, bytes: &[u8], c: usize) -> usize
    requires { at + 32 * c ≤ length out.old }
    ensures { (result ≤ c) × (out.new ≡ pasted out.old at (leaf_run (leaf_of bytes.now) result)) }
{
    let blocks = bytes.len() / 16384;
    for e in 0..c / 8 {
        let i = 8 * e;
        if blocks < i + 8 {
            return i;
        }
        let from = 16384 * i;
        let end = from + 131072;
        let p = hash8(&bytes[from..end]);
        put8(out, at + 32 * i, p);
    }
    8 * (c / 8)
}

// The leaves from number `from` on up to number c, one by one; past the blocks they are zero.
fn put_rest(out: &mut [u8], at: usize, bytes: &[u8], from: usize, c: usize)
    requires { (from ≤ c) × (at + 32 * c ≤ length out.old) }
    ensures { (o : List ℕ) → length o ≡ length out.old → out.old ≡ pasted o at (leaf_run (leaf_of bytes.now) from) → out.new ≡ pasted o at (leaf_run (leaf_of bytes.now) c) }
{
    for i in from..c {
        let h = leaf_of(bytes, i);
        put_hash(out, at + 32 * i, h);
    }
}

// The first c leaves, one after the other from `at` on.
fn put_leaves(out: &mut [u8], at: usize, bytes: &[u8], c: usize)
    requires { at + 32 * c ≤ length out.old }
    ensures { out.new ≡ pasted out.old at (leaf_run (leaf_of bytes.now) c) }
{
    let from = put_eights(out, at, bytes, c);
    put_rest(out, at, bytes, from, c);
}

fn told(store: &[u8], piece: usize, bytes: &[u8], out: &mut [u8]) -> Result<u64, Refused>
    ensures answer { answer_of result ≡ leaves_answer store.now piece bytes.now out.old }
    ensures left { out.new ≡ leaves_after store.now piece bytes.now out.old }
{
    piece_number(store, piece, bytes)?;
    let k = piece_height(store);
    if k == 0 {
        return Ok(0);
    }
    let c = 1 << k;
    let size = HEADER_SIZE + 32 * c;
    if out.len() < size {
        return Err(Refused::NoRoom);
    }
    let root = facts_root(store);
    let index = piece * c;
    put_head(out, root, index, c);
    put_leaves(out, HEADER_SIZE, bytes, c);
    Ok(size as u64)
}

// The numbers of judging a piece; 11; or 0 and the size of the message, which is then at the start of `out`: none where the piece's node is a leaf.
pub fn piece_hashes(store: &[u8], piece: usize, bytes: &[u8], out: &mut [u8]) -> Answer
    ensures { (result ≡ leaves_answer store.now piece bytes.now out.old) × (out.new ≡ leaves_after store.now piece bytes.now out.old) }
{
    Answer::from(told(store, piece, bytes, out))
}
