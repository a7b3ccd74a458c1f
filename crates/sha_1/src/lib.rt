// SHA-1 (FIPS 180-4, section 6.1): the hash of a slice, and of a slice with zeros behind it; two hashes compared whole.
#![tactic(auto)]

ghost use Rattle.std.specs.Prelude.{◌≡◌, ◌+◌, ◌/◌, ◌%◌, ◌^◌, ◌<◌, ◌++◌, length, replicate};
ghost use Rattle.octets.specs.Octets as O;
ghost use Rattle.padding.specs.Cutting.{over_blocks};
ghost use Rattle.rounds1.specs.Block as B;
ghost use Rattle.sha_1.specs.Sha1 as S;
ghost use Rattle.sha_1.specs.Answer.{sha1_of};

use padding::Rounds;
use rounds1::{Five, compress};

// A hash, or the number that says why there is none.
#[repr(C)]
#[derive(Clone, Copy)]
pub struct Sha1Answer {
    pub number: u32,
    pub hash: [u8; 20],
}

fn start() -> Five
    ensures { result ≡ S.start }
{
    Five {
        a: 0x6745_2301,
        b: 0xefcd_ab89,
        c: 0x98ba_dcfe,
        d: 0x1032_5476,
        e: 0xc3d2_e1f0,
    }
}

// SHA-1's rounds.
struct Twenties;

impl Rounds for Twenties {
    type State = Five;

    ghost taken = { λ rounds. B.compress };

    fn take(&self, state: Five, bytes: &[u8], at: usize) -> Five {
        compress(state, bytes, at)
    }
}

fn digest(state: Five) -> [u8; 20]
    ensures { result ≡ S.digest state }
{
    let mut b = [0u8; 20];
    octets::put_hash(&mut b, 0, state.a.to_be_bytes());
    octets::put_hash(&mut b, 4, state.b.to_be_bytes());
    octets::put_hash(&mut b, 8, state.c.to_be_bytes());
    octets::put_hash(&mut b, 12, state.d.to_be_bytes());
    octets::put_hash(&mut b, 16, state.e.to_be_bytes());
    b
}

// The hash of `bytes`. (A slice too long for the standard is hashed with its count of bits modulo 2^64.)
pub fn hash(bytes: &[u8]) -> [u8; 20]
    ensures { result ≡ S.sha1 bytes.now }
{
    digest(padding::over(&Twenties, start(), bytes))
}

// The hash of `bytes`; 4 above the longest string that has one.
pub fn sha1(bytes: &[u8]) -> Sha1Answer
    ensures { result ≡ sha1_of bytes.now }
{
    if bytes.len() <= limits::LONGEST_HASHED {
        let hash = hash(bytes);
        return Sha1Answer { number: 0, hash };
    }
    let none = [0u8; 20];
    Sha1Answer {
        number: numbers::WRONG_SIZE,
        hash: none,
    }
}

// The whole blocks of so many zeros.
fn zero_blocks(state: Five, zeros: usize) -> Five
    ensures { result ≡ over_blocks B.compress (zeros / 64) state (replicate zeros 0) }
{
    let none = [0u8; 64];
    let mut t = state;
    for _i in 0..zeros / 64 {
        t = compress(t, &none, 0);
    }
    t
}

// The hash of `bytes` with so many zeros behind them, which need not lie in memory.
pub fn hash_with_zeros(bytes: &[u8], zeros: usize) -> [u8; 20]
    requires { length bytes.now + zeros < 2 ^ 64 }
    ensures { result ≡ S.sha1 (bytes.now ++ replicate zeros 0) }
{
    let t = padding::whole_blocks(&Twenties, start(), bytes);
    let n = bytes.len();
    let total = n + zeros;
    let left = n % 64;
    let at = n - left;
    let none = [0u8; 64];
    let block = padding::filled(none, 0, &bytes[at..]);
    let room = 64 - left;
    if zeros < room {
        let size = left + zeros;
        return digest(padding::finish(&Twenties, t, &block[0..size], total as u64));
    }
    let u = compress(t, &block, 0);
    let more = zeros - room;
    let v = zero_blocks(u, more);
    let size = more % 64;
    digest(padding::finish(&Twenties, v, &none[0..size], total as u64))
}

// Whether two hashes are the same, all bytes compared. The one place where hashes of 20 bytes are compared.
pub fn same(one: [u8; 20], other: [u8; 20]) -> bool
    ensures { result ≡ O.same one other }
{
    octets::same(one, other)
}
