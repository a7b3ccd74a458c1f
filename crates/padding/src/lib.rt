// FIPS 180-4, sections 5.1.1, 5.2.1 and 6: a message in blocks, the last one or two with the padding; and the bytes that wait for a whole block.
#![tactic(auto)]

ghost use Rattle.std.specs.Prelude.{◌≡◌, ◌+◌, ◌*◌, ◌/◌, ◌≤◌, ◌%◌, ◌++◌, List, ℕ, length, take, drop};
ghost use Rattle.octets.specs.Octets as O;
ghost use Rattle.padding.specs.Padding as P;
ghost use Rattle.padding.specs.Cutting.{over_blocks, over_message};
ghost use Rattle.padding.specs.Running.{tail_array};

// The count of bits of n bytes, modulo 2^64, at a place of b.
fn put_bits(b: &mut [u8; 128], at: usize, n: u64)
    requires { (at + 8 ≤ 128) × (length b.old ≡ 128) }
    ensures { b.new ≡ take at b.old ++ (O.be 8 (8 * n) ++ drop (at + 8) b.old) }
{
    b[at..at + 8].copy_from_slice(&n.wrapping_mul(8).to_be_bytes());
}

// The last bytes `tail` of a message of `total`, with the padding: 64 bytes of the result, or all 128.
pub fn pad(tail: &[u8], total: u64) -> [u8; 128]
    requires { length tail.now ≡ total % 64 }
    ensures { (length result ≡ 128) × (take (length (tail.now ++ P.padding total)) result ≡ tail.now ++ P.padding total) }
{
    let mut b = [0u8; 128];
    let i = tail.len();
    b[..i].copy_from_slice(tail);
    b[i] = 0x80;
    if i < 56 {
        put_bits(&mut b, 56, total);
        return b;
    }
    put_bits(&mut b, 120, total);
    b
}

// `bytes` into b from `at` on.
fn put(b: &mut [u8; 64], at: usize, bytes: &[u8])
    requires { (at + length bytes.now ≤ 64) × (length b.old ≡ 64) }
    ensures { b.new ≡ O.pasted b.old at bytes.now }
{
    b[at..at + bytes.len()].copy_from_slice(bytes);
}

// The first `have` bytes of the tail and then `bytes`, with zeros behind.
pub fn filled(tail: [u8; 64], have: usize, bytes: &[u8]) -> [u8; 64]
    requires { have + length bytes.now ≤ 64 }
    ensures { result ≡ tail_array (take have tail ++ bytes.now) }
{
    let mut b = [0u8; 64];
    put(&mut b, 0, &tail[0..have]);
    put(&mut b, have, bytes);
    b
}

// A hash's rounds: what takes a block of 64 bytes into its state.
pub trait Rounds {
    type State;

    ghost taken: { Self → Self.State → List ℕ → Self.State };

    // The state after the block that starts at `at`.
    fn take(&self, state: Self::State, bytes: &[u8], at: usize) -> Self::State
        requires { at + 64 ≤ length bytes.now }
        ensures { result ≡ taken self.now state (take 64 (drop at bytes.now)) };
}

// The whole blocks of `bytes`.
pub fn whole_blocks<H: Rounds>(rounds: &H, state: H::State, bytes: &[u8]) -> H::State
    ensures { result ≡ over_blocks (H.taken rounds.now) (length bytes.now / 64) state bytes.now }
{
    let mut t = state;
    for i in 0..bytes.len() / 64 {
        t = rounds.take(t, bytes, 64 * i);
    }
    t
}

// The last one or two blocks of a message of `total` bytes, whose last bytes are `bytes`.
pub fn finish<H: Rounds>(rounds: &H, state: H::State, bytes: &[u8], total: u64) -> H::State
    requires { length bytes.now ≡ total % 64 }
    ensures { result ≡ over_blocks (H.taken rounds.now) (length (bytes.now ++ P.padding total) / 64) state (bytes.now ++ P.padding total) }
{
    let b = pad(bytes, total);
    let t = rounds.take(state, &b, 0);
    if bytes.len() < 56 {
        return t;
    }
    rounds.take(t, &b, 64)
}

// All blocks of a message, from the state `start`. (A slice too long for the standard is hashed with its count of bits modulo 2^64.)
pub fn over<H: Rounds>(rounds: &H, start: H::State, bytes: &[u8]) -> H::State
    ensures { result ≡ over_message (H.taken rounds.now) start bytes.now }
{
    let t = whole_blocks(rounds, start, bytes);
    let n = bytes.len();
    let at = n - n % 64;
    finish(rounds, t, &bytes[at..], n as u64)
}
