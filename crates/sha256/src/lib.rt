// SHA-256 (FIPS 180-4, section 6.2): the hash of a slice, and of a pair of hashes.
#![tactic(auto)]

ghost use Rattle.std.specs.Prelude.{◌≡◌, ◌++◌};
ghost use Rattle.constants.specs.Constants.{K};
ghost use Rattle.padding.specs.Padding as P;
ghost use Rattle.rounds.specs.Block as B;
ghost use Rattle.rounds.specs.Sums.{sums};
ghost use Rattle.sha256.specs.Sha256 as S;
ghost use Rattle.sha256.specs.Answer.{hashed_of};

use padding::Rounds;
use rounds::{State, compress, compress_sums};

// A hash, or the number that says why there is none.
#[derive(Clone, Copy)]
pub struct Hashed {
    pub number: u32,
    pub hash: [u8; 32],
}

pub fn start() -> State
    ensures { result ≡ S.start }
{
    let w = constants::start_words();
    State {
        a: w[0],
        b: w[1],
        c: w[2],
        d: w[3],
        e: w[4],
        f: w[5],
        g: w[6],
        h: w[7],
    }
}

// SHA-256's rounds, with the round words.
#[derive(Clone, Copy)]
pub struct RoundWords<'a> {
    pub k: &'a [u32; 64],
}

impl<'a> Rounds for RoundWords<'a> {
    type State = State;

    ghost taken = { λ rounds. B.compress rounds.k.now };

    fn take(&self, state: State, bytes: &[u8], at: usize) -> State {
        compress(state, self.k, bytes, at)
    }
}

pub fn digest(state: State) -> [u8; 32]
    ensures { result ≡ S.digest state }
{
    let mut b = [0u8; 32];
    octets::put_hash(&mut b, 0, state.a.to_be_bytes());
    octets::put_hash(&mut b, 4, state.b.to_be_bytes());
    octets::put_hash(&mut b, 8, state.c.to_be_bytes());
    octets::put_hash(&mut b, 12, state.d.to_be_bytes());
    octets::put_hash(&mut b, 16, state.e.to_be_bytes());
    octets::put_hash(&mut b, 20, state.f.to_be_bytes());
    octets::put_hash(&mut b, 24, state.g.to_be_bytes());
    octets::put_hash(&mut b, 28, state.h.to_be_bytes());
    b
}

// The hash of `bytes`. (A slice too long for the standard is hashed with its count of bits modulo 2^64.)
pub fn hash(bytes: &[u8]) -> [u8; 32]
    ensures { result ≡ S.sha256 bytes.now }
{
    let k = constants::round_words();
    digest(padding::over(&RoundWords { k: &k }, start(), bytes))
}

// The hash of `bytes`; 4 above the longest string that has one.
pub fn sha256(bytes: &[u8]) -> Hashed
    ensures { result ≡ hashed_of bytes.now }
{
    if bytes.len() <= limits::LONGEST_HASHED {
        let h = hash(bytes);
        return Hashed { number: 0, hash: h };
    }
    let none = [0u8; 32];
    Hashed {
        number: numbers::WRONG_SIZE,
        hash: none,
    }
}

// Left then right, as one block.
fn joined(left: [u8; 32], right: [u8; 32]) -> [u8; 64]
    ensures { result ≡ left ++ right }
{
    let mut b = [0u8; 64];
    octets::put_hash(&mut b, 0, left);
    octets::put_hash(&mut b, 32, right);
    b
}

// K_t + W_t for each round of the block that ends every message of 64 bytes.
const PAIR_SUMS: [u32; 64] = [
    0xc28a_2f98,
    0x7137_4491,
    0xb5c0_fbcf,
    0xe9b5_dba5,
    0x3956_c25b,
    0x59f1_11f1,
    0x923f_82a4,
    0xab1c_5ed5,
    0xd807_aa98,
    0x1283_5b01,
    0x2431_85be,
    0x550c_7dc3,
    0x72be_5d74,
    0x80de_b1fe,
    0x9bdc_06a7,
    0xc19b_f374,
    0x649b_69c1,
    0xf0fe_4786,
    0x0fe1_edc6,
    0x240c_f254,
    0x4fe9_346f,
    0x6cc9_84be,
    0x61b9_411e,
    0x16f9_88fa,
    0xf2c6_5152,
    0xa88e_5a6d,
    0xb019_fc65,
    0xb9d9_9ec7,
    0x9a12_31c3,
    0xe70e_eaa0,
    0xfdb1_232b,
    0xc735_3eb0,
    0x3069_bad5,
    0xcb97_6d5f,
    0x5a0f_118f,
    0xdc1e_eefd,
    0x0a35_b689,
    0xde0b_7a04,
    0x58f4_ca9d,
    0xe15d_5b16,
    0x007f_3e86,
    0x3708_8980,
    0xa507_ea32,
    0x6fab_9537,
    0x1740_6110,
    0x0d8c_d6f1,
    0xcdaa_3b6d,
    0xc0bb_be37,
    0x8361_3bda,
    0xdb48_a363,
    0x0b02_e931,
    0x6fd1_5ca7,
    0x521a_faca,
    0x3133_8431,
    0x6ed4_1a95,
    0x6d43_7890,
    0xc39c_91f2,
    0x9ecc_abbd,
    0xb5c9_a0e6,
    0x532f_b63c,
    0xd2c7_41c6,
    0x0723_7ea3,
    0xa495_4b68,
    0x4c19_1d76,
];

// The round words and the schedule of that block, added.
pub fn pair_sums() -> [u32; 64]
    ensures { result ≡ sums 64 K (B.schedule 48 (P.padding 64)) }
{
    PAIR_SUMS
}

// The hash of two hashes, left then right: the parent of two nodes.
pub fn pair(left: [u8; 32], right: [u8; 32]) -> [u8; 32]
    ensures { result ≡ S.pair_hash left right }
{
    let k = constants::round_words();
    let x = pair_sums();
    let b = joined(left, right);
    let t = compress(start(), &k, &b, 0);
    digest(compress_sums(t, &x))
}
