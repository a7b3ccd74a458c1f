// The replay of a session: records come in byte by byte, in pieces of any size, and each opening and each message's end gives a line.
#![tactic(auto)]

ghost use Rattle.std.specs.Prelude.{◌≡◌, true, ◌+◌, ◌≤◌, length, take, replicate};
ghost use Rattle.numbers.specs.Numbers.{refused};
ghost use Rattle.numbers.specs.Refusals.{number_of};
ghost use Rattle.session.specs.Session as S;

use header::{HASHES, HEADER_SIZE};
use numbers::{Answer, Refused};
use tree::geometry::block_count;

// Where a session stands. In a body: how many bytes are to come after the next one.
#[derive(Clone, Copy)]
pub enum Phase {
    // nothing opened yet
    Fresh,
    // a store is open
    Open,
    // in the body of an opening
    Opening(usize),
    // inside a message, before a record
    Inside,
    // inside a message, in the body of a header or a hash
    Body(usize),
    Stopped,
}

// The phase, and how many bytes of the opening or message are gathered in the lent room.
#[derive(Clone, Copy)]
pub struct Progress {
    pub phase: Phase,
    pub at: usize,
}

// What a byte gives: where the session stands then, and the line that is to be printed, if there is one.
#[derive(Clone, Copy)]
pub struct Stepped {
    pub progress: Progress,
    pub line: Option<Answer>,
}

// What a piece of the input gives: the line that its first `used` bytes end with, if there is one.
#[derive(Clone, Copy)]
pub struct Part {
    pub progress: Progress,
    pub used: usize,
    pub line: Option<Answer>,
}

// The replay's own limits: the blocks of a file, and the hashes of a message.
const MAX_BLOCKS: usize = 512;

const MAX_HASHES: usize = 528;

// The bytes of a message with as many hashes; the lent room has at least as many.
pub const MAX_MESSAGE: usize = HEADER_SIZE + 32 * MAX_HASHES;

// The bytes of a store for as many blocks; the lent store has at least as many.
pub const MAX_STORE: usize = 34335;

// A store's bytes for any file that the replay takes, to lend.
pub fn new_store() -> [u8; MAX_STORE]
    ensures { (result ≡ replicate S.max_store 0) × (S.max_store ≤ length result) }
{
    [0u8; MAX_STORE]
}

// Nothing to print.
fn goes(phase: Phase, at: usize) -> Stepped
    ensures { result ≡ S.goes_at phase at }
{
    let progress = Progress { phase, at };
    Stepped {
        progress,
        line: None,
    }
}

// A line, and nothing gathered.
fn says(phase: Phase, answer: Answer) -> Stepped
    ensures { result ≡ S.says_at phase answer }
{
    let progress = Progress { phase, at: 0 };
    Stepped {
        progress,
        line: Some(answer),
    }
}

// The last line before the end.
fn stops(why: Refused) -> Stepped
    ensures { result ≡ S.says_at Phase.Stopped (refused (number_of why)) }
{
    says(Phase::Stopped, Answer::from(Err(why)))
}

// A kind byte outside a message; `opened`: whether a store is.
fn outside(opened: bool, store: &[u8], room: &mut [u8], kind: u8) -> Stepped
    requires { S.max_message ≤ length room.old }
    ensures { S.Follows (S.outside opened store.now kind) result store.now room.new }
{
    if kind == 1 {
        return goes(Phase::Opening(43), 0);
    }
    if opened {
        if kind == 2 {
            room[0] = HASHES;
            return goes(Phase::Body(47), 1);
        }
        return stops(Refused::NoMessage);
    }
    stops(Refused::NoMessage)
}

// A kind byte inside a message, of which `at` bytes are gathered.
fn inside(store: &mut [u8], room: &[u8], at: usize, kind: u8) -> Stepped
    requires { (S.max_message ≤ length room.now) × (at ≤ S.max_message) }
    ensures { S.Follows (S.inside (take at room.now) store.old kind) result store.new room.now }
{
    if kind == 3 {
        if at + 32 <= MAX_MESSAGE {
            return goes(Phase::Body(31), at);
        }
        return stops(Refused::NoMessage);
    }
    if kind == 4 {
        let answer = messages::take::take(store, &room[0..at]);
        return says(Phase::Open, answer);
    }
    stops(Refused::NoMessage)
}

// A whole opening stands at the front of the room.
fn opening(store: &mut [u8], room: &[u8]) -> Stepped
    requires { (44 ≤ length room.now) × (S.max_store ≤ length store.old) }
    ensures { S.Follows (S.opening (take 44 room.now) store.old) result store.new room.now }
{
    let n = octets::number_at(room, 0, 8);
    let blocks = block_count(n);
    if blocks <= MAX_BLOCKS {
        let plen = octets::number_at(room, 8, 4);
        let root = octets::hash_at(room, 12);
        let answer = store::open(store, n, plen, root);
        if answer.number == 0 {
            return says(Phase::Open, answer);
        }
        return stops(Refused::FactsOutOfRange);
    }
    stops(Refused::FactsOutOfRange)
}

// The next byte of the input.
pub fn take_byte(progress: Progress, store: &mut [u8], room: &mut [u8], byte: u8) -> Stepped
    requires { S.Lent progress (length store.old) (length room.old) }
    ensures { S.Follows (S.step progress.phase (take progress.at room.old) store.old byte) result store.new room.new }
{
    let at = progress.at;
    let phase = progress.phase;
    match phase {
        Phase::Fresh => outside(false, store, room, byte),
        Phase::Open => outside(true, store, room, byte),
        Phase::Opening(left) => {
            room[at] = byte;
            if left == 0 {
                return opening(store, room);
            }
            goes(Phase::Opening(left - 1), at + 1)
        }
        Phase::Inside => inside(store, room, at, byte),
        Phase::Body(left) => {
            room[at] = byte;
            if left == 0 {
                return goes(Phase::Inside, at + 1);
            }
            goes(Phase::Body(left - 1), at + 1)
        }
        Phase::Stopped => goes(Phase::Stopped, 0),
    }
}

// The end of the input.
pub fn end(progress: Progress) -> Option<Answer>
    ensures { result ≡ S.ending progress.phase }
{
    let phase = progress.phase;
    let cut = Answer::from(Err(Refused::NoMessage));
    match phase {
        Phase::Fresh => None,
        Phase::Open => None,
        Phase::Opening(_) => Some(cut),
        Phase::Inside => Some(cut),
        Phase::Body(_) => Some(cut),
        Phase::Stopped => None,
    }
}

// The next bytes of the input, as many as there are up to the first line.
pub fn take_piece(progress: Progress, store: &mut [u8], room: &mut [u8], piece: &[u8]) -> Part
    requires { S.Lent progress (length store.old) (length room.old) }
    ensures { S.Reads (S.reading (S.seen progress store.old room.old) piece.now) result store.new room.new }
{
    let mut q = progress;
    for i in 0..piece.len() {
        let f = take_byte(q, store, room, piece[i]);
        q = f.progress;
        if f.line.is_some() {
            return Part {
                progress: q,
                used: i + 1,
                line: f.line,
            };
        }
    }
    Part {
        progress: q,
        used: piece.len(),
        line: None,
    }
}

// Before any input.
pub fn start() -> Progress
    ensures { result ≡ S.started }
{
    Progress {
        phase: Phase::Fresh,
        at: 0,
    }
}
