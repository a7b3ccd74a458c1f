// The piece to fetch: of the pieces not on disk that some neighbour has, the one that the fewest have.
ghost use Rattle.std.specs.Prelude.{◌≡◌, true, ◌<◌, length};
ghost use Rattle.tree.specs.Geometry.{piece_count};
ghost use Rattle.store.specs.Store.{usable, file_length, piece_length};
ghost use Rattle.marks.specs.Marks.{piece_marked};
ghost use Rattle.asking.specs.Picking as P;
ghost use Rattle.asking.specs.Asks.{DiskOf};

use marks::{all_marked, each_piece, marks_start};
use numbers::Refused;
use store::{blocks_of, file_length, is_usable, piece_length_of};
use tree::geometry::{piece_count, piece_size};

// kd_choice, a struct of the C interface: a number; beside 0, `found` is 1 with the piece to fetch, or 0: nothing to fetch.
#[repr(C)]
#[derive(Clone, Copy)]
pub struct Choice {
    pub number: u32,
    pub found: u32,
    pub piece: u64,
}

// Where a store's marks begin, how many blocks a piece has but for the last, how many the file has: worked out once for all pieces.
#[derive(Clone, Copy)]
pub struct Disk {
    pub start: usize,
    pub each: usize,
    pub blocks: usize,
}

fn disk_of(store: &[u8]) -> Disk
    requires { usable store.now ≡ true }
    ensures { DiskOf store.now result }
{
    let start = marks_start(store);
    let each = each_piece(store);
    let blocks = blocks_of(store);
    Disk {
        start,
        each,
        blocks,
    }
}

// Whether the blocks of one of the file's pieces are all marked.
fn on_disk(store: &[u8], disk: Disk, piece: usize) -> bool
    requires { (usable store.now ≡ true) × DiskOf store.now disk × (piece < piece_count (file_length store.now) (piece_length store.now)) }
    ensures { result ≡ piece_marked store.now piece }
{
    let each = disk.each;
    let blocks = disk.blocks;
    let first = each * piece;
    let n = piece_size(blocks, each, piece);
    all_marked(store, disk.start, first, n)
}

// Whether a piece with that count goes before the best so far.
fn goes_before(counts: &[u32], count: u32, best: Option<usize>) -> bool
    requires { (P.picked best).piece < length counts.now }
    ensures { result ≡ P.before counts.now count (P.picked best) }
{
    match best {
        Some(other) => count < counts[other],
        None => true,
    }
}

// The best after one more piece.
fn with_piece(
    store: &[u8],
    counts: &[u32],
    disk: Disk,
    best: Option<usize>,
    piece: usize,
) -> Option<usize>
    requires { (usable store.now ≡ true) × DiskOf store.now disk × (length counts.now ≡ piece_count (file_length store.now) (piece_length store.now)) × (piece < length counts.now) × ((P.picked best).piece < length counts.now) }
    ensures { P.picked result ≡ P.chosen store.now counts.now piece (P.picked best) }
{
    let count = counts[piece];
    if count == 0 {
        return best;
    }
    let rarer = goes_before(counts, count, best);
    if !rarer {
        return best;
    }
    let whole = on_disk(store, disk, piece);
    if whole {
        return best;
    }
    Some(piece)
}

// The best of all pieces.
fn best_piece(store: &[u8], counts: &[u32]) -> Option<usize>
    requires { (usable store.now ≡ true) × (length counts.now ≡ piece_count (file_length store.now) (piece_length store.now)) }
    ensures { P.picked result ≡ P.best_of store.now counts.now (length counts.now) }
{
    let d = disk_of(store);
    let n = counts.len();
    let mut best = None;
    for i in 0..n {
        let next = with_piece(store, counts, d, best, i);
        best = next;
    }
    best
}

impl From<Result<Option<usize>, Refused>> for Choice {
    ghost from_gives = { λ outcome choice. choice ≡ P.choice_of outcome };

    fn from(outcome: Result<Option<usize>, Refused>) -> Choice {
        match outcome {
            Ok(Some(piece)) => Choice {
                number: 0,
                found: 1,
                piece: piece as u64,
            },
            Ok(None) => Choice {
                number: 0,
                found: 0,
                piece: 0,
            },
            Err(why) => Choice {
                number: u32::from(why),
                found: 0,
                piece: 0,
            },
        }
    }
}

fn picked(store: &[u8], counts: &[u32]) -> Result<Option<usize>, Refused>
    ensures { P.choice_of result ≡ P.pick_answer store.now counts.now }
{
    if !is_usable(store) {
        return Err(Refused::Unusable);
    }
    let size = file_length(store);
    let plen = piece_length_of(store);
    let c = piece_count(size, plen);
    if counts.len() != c {
        return Err(Refused::WrongSize);
    }
    Ok(best_piece(store, counts))
}

// The piece to fetch: 9, 4, or 0 with the rarest piece that isn't on disk, the lowest on a tie, or with nothing to fetch.
pub fn pick_piece(store: &[u8], counts: &[u32]) -> Choice
    ensures { result ≡ P.pick_answer store.now counts.now }
{
    Choice::from(picked(store, counts))
}
