// The hashes of eight messages of one length, and the parents of sixteen hashes.
ghost use Rattle.std.specs.Prelude.{◌≡◌, ℕ, ◌+◌, ◌*◌, ◌/◌, ◌%◌, ◌<◌, ◌≤◌, length};
ghost use Rattle.octets.specs.Octets.{cut, pasted};
ghost use Rattle.padding.specs.Cutting.{over_blocks, over_message};
ghost use Rattle.rounds.specs.Block as B;
ghost use Rattle.rounds.specs.declared.State as D;
ghost use Rattle.sha256.specs.Sha256 as S;
ghost use Rattle.lanes.specs.Lanes.{state_in};
ghost use Rattle.lanes.specs.Hashes.{Filled, eighth_hash, parent_of};

use crate::block::{compress_sums8, compress8, lane_of, put_lane};
use octets::{hash_at, put_hash};
use sha256::RoundWords;

// The start words in every lane.
fn start8() -> [u32; 64]
    ensures { (length result ≡ 64) × ((j : ℕ) → j < 8 → state_in result j ≡ S.start) }
{
    let z = sha256::start();
    let mut t = [0u32; 64];
    for j in 0..8 {
        put_lane(&mut t, j, z);
    }
    t
}

// The whole blocks of eight messages of n bytes, one after the other in `bytes`.
fn whole_blocks8(st: [u32; 64], k: &[u32; 64], bytes: &[u8], n: usize) -> [u32; 64]
    requires { 8 * n ≤ length bytes.now }
    ensures { (length result ≡ 64) × ((j : ℕ) → j < 8 → state_in result j ≡ over_blocks (B.compress k.now) (n / 64) (state_in st j) (cut bytes.now (j * n) n)) }
{
    let mut t = st;
    for i in 0..n / 64 {
        let next = compress8(t, k, bytes, 64 * i, n);
        t = next;
    }
    t
}

// The hash of message j, whose whole blocks lane j of t has taken. Its last bytes, with the padding, are hashed alone.
fn message_hash(t: &[u32; 64], k: &[u32; 64], bytes: &[u8], n: usize, j: usize) -> [u8; 32]
    requires { (j < 8) × (8 * n ≤ length bytes.now) }
    ensures { (z : D.State) → state_in t.now j ≡ over_blocks (B.compress k.now) (n / 64) z (cut bytes.now (j * n) n) → result ≡ S.digest (over_message (B.compress k.now) z (cut bytes.now (j * n) n)) }
{
    let to = j * n + n;
    let from = to - n % 64;
    let rest = &bytes[from..to];
    let state = lane_of(t, j);
    sha256::digest(padding::finish(&RoundWords { k }, state, rest, n as u64))
}

// The hashes of eight messages of one length, one after the other in `bytes`.
pub fn hash8(bytes: &[u8]) -> [u8; 256]
    requires { length bytes.now % 8 ≡ 0 }
    ensures { Filled (eighth_hash bytes.now) 256 8 result }
{
    let k = constants::round_words();
    let n = bytes.len() / 8;
    let t = whole_blocks8(start8(), &k, bytes, n);
    let mut r = [0u8; 256];
    for j in 0..8 {
        let h = message_hash(&t, &k, bytes, n, j);
        put_hash(&mut r, 32 * j, h);
    }
    r
}

// The digests of all lanes.
fn digests(t: [u32; 64]) -> [u8; 256]
    ensures { Filled (λ (j : ℕ). S.digest (state_in t j)) 256 8 result }
{
    let mut r = [0u8; 256];
    for j in 0..8 {
        let h = sha256::digest(lane_of(&t, j));
        put_hash(&mut r, 32 * j, h);
    }
    r
}

// The parents of sixteen hashes, two by two.
pub fn pairs8(bytes: &[u8]) -> [u8; 256]
    requires { length bytes.now ≡ 512 }
    ensures { Filled (parent_of bytes.now) 256 8 result }
{
    let k = constants::round_words();
    let t = compress8(start8(), &k, bytes, 0, 64);
    let x = sha256::pair_sums();
    digests(compress_sums8(t, &x))
}

// Eight hashes into `out`, from `at` on.
pub fn put8(out: &mut [u8], at: usize, hashes: [u8; 256])
    requires { at + 256 ≤ length out.old }
    ensures { out.new ≡ pasted out.old at hashes }
{
    for x in 0..8 {
        let h: [u8; 32] = hash_at(&hashes, 32 * x);
        put_hash(&mut *out, at + 32 * x, h);
    }
}
