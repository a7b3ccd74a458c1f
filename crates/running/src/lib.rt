// SHA-256 of bytes that come in bursts. A state goes in by value, and comes back after each burst.
#![tactic(auto)]

ghost use Rattle.std.specs.Prelude.{◌≡◌, [], ◌+◌, ◌<◌, ◌%◌, ◌^◌, length};
ghost use Rattle.running.specs.Bursts as B;

use padding::filled;
use rounds::State;
use sha256::{Hashed, RoundWords};

// kd_hashing: the words after the whole blocks so far, the bytes past those, how many these are, and how many bytes came in all.
#[repr(C)]
#[derive(Clone, Copy)]
pub struct Hashing {
    pub words: [u32; 8],
    pub tail: [u8; 64],
    pub tail_size: u64,
    pub total: u64,
}

// kd_hashing_answer: a number, and the state after the burst; beside a refusal the state as it was given.
#[repr(C)]
#[derive(Clone, Copy)]
pub struct HashingAnswer {
    pub number: u32,
    pub hashing: Hashing,
}

fn to_words(s: State) -> [u32; 8]
    ensures { result ≡ B.to_words s }
{
    [s.a, s.b, s.c, s.d, s.e, s.f, s.g, s.h]
}

fn from_words(w: [u32; 8]) -> State
    ensures { result ≡ B.from_words w }
{
    State {
        a: w[0],
        b: w[1],
        c: w[2],
        d: w[3],
        e: w[4],
        f: w[5],
        g: w[6],
        h: w[7],
    }
}

// No bytes yet.
pub fn begin() -> Hashing
    ensures { result ≡ B.state_of [] }
{
    let words = to_words(sha256::start());
    let tail = [0u8; 64];
    Hashing {
        words,
        tail,
        tail_size: 0,
        total: 0,
    }
}

// Whether some bursts give such counts.
pub fn is_possible(tail_size: u64, total: u64) -> bool
    ensures { result ≡ B.possible tail_size total }
{
    if total as usize <= limits::LONGEST_HASHED {
        return tail_size == total % 64;
    }
    false
}

// The state after a `burst`.
pub fn absorb(hashing: Hashing, burst: &[u8]) -> Hashing
    requires { (hashing.tail_size ≡ hashing.total % 64) × (hashing.total + length burst.now < 2 ^ 64) }
    ensures { (result ≡ B.absorbed hashing burst.now) × (result.tail_size ≡ result.total % 64) }
{
    let n = hashing.tail_size as usize;
    let total = hashing.total + burst.len() as u64;
    let room = 64 - n;
    let words = hashing.words;
    let old = hashing.tail;
    if burst.len() < room {
        let tail = filled(old, n, burst);
        let size = n + burst.len();
        return Hashing {
            words,
            tail,
            tail_size: size as u64,
            total,
        };
    }
    let first = filled(old, n, &burst[0..room]);
    let k = constants::round_words();
    let t = rounds::compress(from_words(words), &k, &first, 0);
    let rest = &burst[room..];
    let u = padding::whole_blocks(&RoundWords { k: &k }, t, rest);
    let at = rest.len() - rest.len() % 64;
    let left = &rest[at..];
    let waiting = filled(old, 0, left);
    Hashing {
        words: to_words(u),
        tail: waiting,
        tail_size: left.len() as u64,
        total,
    }
}

// The hash of the bytes so far.
pub fn hash_of(hashing: Hashing) -> [u8; 32]
    requires { hashing.tail_size ≡ hashing.total % 64 }
    ensures { result ≡ B.hash_of hashing }
{
    let k = constants::round_words();
    let n = (hashing.total % 64) as usize;
    let words = hashing.words;
    let tail = hashing.tail;
    let state = from_words(words);
    sha256::digest(padding::finish(&RoundWords { k: &k }, state, &tail[0..n], hashing.total))
}

// Takes a `burst`: 9 for counts that no bursts give, 4 past the longest string that has a hash, else 0 and the state after it.
pub fn more(hashing: Hashing, burst: &[u8]) -> HashingAnswer
    ensures { result ≡ B.more_answer hashing burst.now }
{
    if is_possible(hashing.tail_size, hashing.total) {
        let left = limits::LONGEST_HASHED - hashing.total as usize;
        if burst.len() <= left {
            return HashingAnswer {
                number: 0,
                hashing: absorb(hashing, burst),
            };
        }
        return HashingAnswer {
            number: numbers::WRONG_SIZE,
            hashing: hashing,
        };
    }
    HashingAnswer {
        number: numbers::UNUSABLE,
        hashing: hashing,
    }
}

// The hash of the bytes so far; 9 for counts that no bursts give. The state is a copy: it may go on.
pub fn end(hashing: Hashing) -> Hashed
    ensures { result ≡ B.end_answer hashing }
{
    if is_possible(hashing.tail_size, hashing.total) {
        let hash = hash_of(hashing);
        return Hashed { number: 0, hash };
    }
    let none = [0u8; 32];
    Hashed {
        number: numbers::UNUSABLE,
        hash: none,
    }
}
