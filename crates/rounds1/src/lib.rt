// FIPS 180-4, section 6.1.2: SHA-1's message schedule and the rounds of one block.
#![tactic(auto)]

ghost use Rattle.std.specs.Prelude.{◌≡◌, ℕ, ◌+◌, ◌*◌, ◌<◌, ◌≤◌, List, length, take, drop, set};
ghost use Rattle.bits.specs.Parsing.{words};
ghost use Rattle.rounds1.specs.Block as S;
ghost use Rattle.rounds1.specs.Stage.{Stage, By};
ghost use Rattle.rounds1.specs.declared.Five as D;

use bits::{add, ch, maj, parity, rotl, word};

// The five working words.
#[derive(Clone, Copy)]
pub struct Five {
    pub a: u32,
    pub b: u32,
    pub c: u32,
    pub d: u32,
    pub e: u32,
}

// One round, with the value x of its function, K_t and W_t.
fn turn(s: Five, x: u32, k: u32, w: u32) -> Five
    ensures { result ≡ S.turn s x k w }
{
    Five {
        a: add(add(add(add(k, w), s.e), x), rotl(s.a, 5)),
        b: s.a,
        c: rotl(s.b, 30),
        d: s.c,
        e: s.d,
    }
}

fn sum(s: Five, t: Five) -> Five
    ensures { result ≡ S.plus s t }
{
    Five {
        a: add(s.a, t.a),
        b: add(s.b, t.b),
        c: add(s.c, t.c),
        d: add(s.d, t.d),
        e: add(s.e, t.e),
    }
}

// The sixteen words of the block that starts at `at`, into the first sixteen of w.
fn load(w: &mut [u32; 80], bytes: &[u8], at: usize)
    requires { (at + 64 ≤ length bytes.now) × (length w.old ≡ 80) }
    ensures { (length w.new ≡ 80) × (take 16 w.new ≡ words 16 (take 64 (drop at bytes.now))) }
{
    for i in 0..16 {
        w[i] = word(bytes, at + i * 4);
    }
}

// The word i + 16 from the sixteen before it.
fn grow(w: &mut [u32; 80], i: usize)
    requires { i < 64 }
    ensures { w.new ≡ set w.old (i + 16) (S.next w.old (i + 16)) }
{
    w[i + 16] = rotl(w[i + 13] ^ w[i + 8] ^ w[i + 2] ^ w[i], 1);
}

// Four such words.
fn grow4(w: &mut [u32; 80], i: usize)
    requires { i ≤ 60 }
    ensures { (m : List ℕ) → Stage m i w.old → Stage m (i + 4) w.new }
{
    grow(&mut *w, i);
    grow(&mut *w, i + 1);
    grow(&mut *w, i + 2);
    grow(&mut *w, i + 3);
}

// The message schedule of the block that starts at `at`.
fn fill(w: &mut [u32; 80], bytes: &[u8], at: usize)
    requires { (at + 64 ≤ length bytes.now) × (length w.old ≡ 80) }
    ensures { w.new ≡ S.schedule 64 (take 64 (drop at bytes.now)) }
{
    load(&mut *w, bytes, at);
    for i in 0..16 {
        grow4(&mut *w, 4 * i);
    }
}

// Round i, by its function and its word k.
fn step<F: Fn(u32, u32, u32) -> u32>(s: Five, w: &[u32; 80], function: &F, k: u32, i: usize) -> Five
    requires called { F.IsAlwaysCallable function.now }
    requires by { (i < 80) × By (F.post function.now) i k }
    ensures { (z : D.Five) → s ≡ S.rounds w.now i z → result ≡ S.rounds w.now (i + 1) z }
{
    turn(s, function(s.b, s.c, s.d), k, w[i])
}

// Five such rounds bring each word back to its place.
fn step5<F: Fn(u32, u32, u32) -> u32>(
    s: Five,
    w: &[u32; 80],
    function: &F,
    k: u32,
    i: usize,
) -> Five
    requires called { F.IsAlwaysCallable function.now }
    requires by { (i ≤ 75) × ((j : ℕ) → i ≤ j → j < i + 5 → By (F.post function.now) j k) }
    ensures { (z : D.Five) → s ≡ S.rounds w.now i z → result ≡ S.rounds w.now (i + 5) z }
{
    let s1 = step(s, w, function, k, i);
    let s2 = step(s1, w, function, k, i + 1);
    let s3 = step(s2, w, function, k, i + 2);
    let s4 = step(s3, w, function, k, i + 3);
    step(s4, w, function, k, i + 4)
}

// Twenty rounds by one function, from `first` on.
fn twenty<F: Fn(u32, u32, u32) -> u32>(
    st: Five,
    w: &[u32; 80],
    function: &F,
    k: u32,
    first: usize,
) -> Five
    requires called { F.IsAlwaysCallable function.now }
    requires by { (first ≤ 60) × ((j : ℕ) → first ≤ j → j < first + 20 → By (F.post function.now) j k) }
    ensures { (z : D.Five) → st ≡ S.rounds w.now first z → result ≡ S.rounds w.now (first + 20) z }
{
    let mut t = st;
    for i in 0..4 {
        t = step5(t, w, function, k, first + 5 * i);
    }
    t
}

// The block of `bytes` at `at`.
pub fn compress(state: Five, bytes: &[u8], at: usize) -> Five
    requires { at + 64 ≤ length bytes.now }
    ensures { result ≡ S.compress state (take 64 (drop at bytes.now)) }
{
    let mut w = [0u32; 80];
    fill(&mut w, bytes, at);
    let t20 = twenty(state, &w, &ch, 0x5a82_7999, 0);
    let t40 = twenty(t20, &w, &parity, 0x6ed9_eba1, 20);
    let t60 = twenty(t40, &w, &maj, 0x8f1b_bcdc, 40);
    let t80 = twenty(t60, &w, &parity, 0xca62_c1d6, 60);
    sum(state, t80)
}
