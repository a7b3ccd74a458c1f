// FIPS 180-4, sections 3.1, 3.2, 4.1.1 and 4.1.2: words of 32 bits, their operations, and a word as four bytes.
#![tactic(auto)]

ghost use Rattle.std.specs.Prelude.{◌≡◌, ◌+◌, ◌%◌, ◌^◌, ◌<◌, ◌≤◌, length};
ghost use Rattle.bits.specs.Words as W;
ghost use Rattle.bits.specs.Parsing.{word_at};

// The sum, its carry dropped.
pub fn add(x: u32, y: u32) -> u32
    ensures { result ≡ (x + y) % 2 ^ 32 }
{
    x.wrapping_add(y)
}

pub fn rotr(x: u32, n: u32) -> u32
    requires { (0 < n) × (n < 32) }
    ensures { result ≡ W.rotr n x }
{
    x.rotate_right(n)
}

pub fn rotl(x: u32, n: u32) -> u32
    requires { (0 < n) × (n < 32) }
    ensures { result ≡ W.rotl n x }
{
    x.rotate_left(n)
}

pub fn parity(x: u32, y: u32, z: u32) -> u32
    ensures { result ≡ W.Parity x y z }
{
    x ^ y ^ z
}

// The standard's form has four operations; this one has three.
pub fn ch(x: u32, y: u32, z: u32) -> u32
    ensures { result ≡ W.Ch x y z }
{
    z ^ (x & (y ^ z))
}

// Four operations for the standard's five.
pub fn maj(x: u32, y: u32, z: u32) -> u32
    ensures { result ≡ W.Maj x y z }
{
    ((x ^ y) & (y ^ z)) ^ y
}

// Each rotation goes on from the one before, so that one register serves; here and in the next three.
pub fn big0(x: u32) -> u32
    ensures { result ≡ W.Σ₀ x }
{
    rotr(rotr(rotr(x, 9) ^ x, 11) ^ x, 2)
}

pub fn big1(x: u32) -> u32
    ensures { result ≡ W.Σ₁ x }
{
    rotr(rotr(rotr(x, 14) ^ x, 5) ^ x, 6)
}

pub fn small0(x: u32) -> u32
    ensures { result ≡ W.σ₀ x }
{
    rotr(rotr(x, 11) ^ x, 7) ^ (x >> 3)
}

pub fn small1(x: u32) -> u32
    ensures { result ≡ W.σ₁ x }
{
    rotr(rotr(x, 2) ^ x, 17) ^ (x >> 10)
}

// The word whose four bytes stand at `index`, the most significant first.
pub fn word(bytes: &[u8], index: usize) -> u32
    requires { index + 4 ≤ length bytes.now }
    ensures { result ≡ word_at bytes.now index }
{
    u32::from_be_bytes(*bytes[index..].first_chunk().unwrap())
}
