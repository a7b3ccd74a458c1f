// FIPS 180-4, section 6.2.2: the message schedule and the rounds of one block.
#![tactic(auto)]

ghost use Rattle.std.specs.Prelude.{◌≡◌, ℕ, ◌+◌, ◌*◌, ◌<◌, ◌≤◌, List, length, take, drop, set};
ghost use Rattle.bits.specs.Parsing.{words};
ghost use Rattle.rounds.specs.Block as S;
ghost use Rattle.rounds.specs.Stage.{Stage};
ghost use Rattle.rounds.specs.Sums.{sums, rounds_by};
ghost use Rattle.rounds.specs.declared.State as D;

use bits::{add, big0, big1, ch, maj, small0, small1, word};

// The eight working words.
#[derive(Clone, Copy)]
pub struct State {
    pub a: u32,
    pub b: u32,
    pub c: u32,
    pub d: u32,
    pub e: u32,
    pub f: u32,
    pub g: u32,
    pub h: u32,
}

// A round takes its two words K_t and W_t by their `sum` alone.
pub fn round(state: State, sum: u32) -> State
    ensures { result ≡ S.round state sum 0 }
{
    let t1 = add(
        add(add(state.h, sum), ch(state.e, state.f, state.g)),
        big1(state.e),
    );
    let t2 = add(big0(state.a), maj(state.a, state.b, state.c));
    State {
        a: add(t1, t2),
        b: state.a,
        c: state.b,
        d: state.c,
        e: add(state.d, t1),
        f: state.e,
        g: state.f,
        h: state.g,
    }
}

fn sum(s: State, t: State) -> State
    ensures { result ≡ S.plus s t }
{
    State {
        a: add(s.a, t.a),
        b: add(s.b, t.b),
        c: add(s.c, t.c),
        d: add(s.d, t.d),
        e: add(s.e, t.e),
        f: add(s.f, t.f),
        g: add(s.g, t.g),
        h: add(s.h, t.h),
    }
}

// The sixteen words of the block that starts at `at`, into the first sixteen of w.
fn load(w: &mut [u32; 64], bytes: &[u8], at: usize)
    requires { (at + 64 ≤ length bytes.now) × (length w.old ≡ 64) }
    ensures { (length w.new ≡ 64) × (take 16 w.new ≡ words 16 (take 64 (drop at bytes.now))) }
{
    for i in 0..16 {
        w[i] = word(bytes, at + i * 4);
    }
}

// The word i + 16 from the sixteen before it.
fn grow(w: &mut [u32; 64], i: usize)
    requires { i < 48 }
    ensures { w.new ≡ set w.old (i + 16) (S.next w.old (i + 16)) }
{
    w[i + 16] = add(
        add(add(small0(w[i + 1]), w[i]), w[i + 9]),
        small1(w[i + 14]),
    );
}

// Four such words.
fn grow4(w: &mut [u32; 64], i: usize)
    requires { i ≤ 44 }
    ensures { (m : List ℕ) → Stage m i w.old → Stage m (i + 4) w.new }
{
    grow(&mut *w, i);
    grow(&mut *w, i + 1);
    grow(&mut *w, i + 2);
    grow(&mut *w, i + 3);
}

// The message schedule of the block that starts at `at`.
fn fill(w: &mut [u32; 64], bytes: &[u8], at: usize)
    requires { (at + 64 ≤ length bytes.now) × (length w.old ≡ 64) }
    ensures { w.new ≡ S.schedule 48 (take 64 (drop at bytes.now)) }
{
    load(&mut *w, bytes, at);
    for i in 0..12 {
        grow4(&mut *w, 4 * i);
    }
}

// To each word its round word.
fn add_round_words(w: &mut [u32; 64], k: &[u32; 64])
    requires { length w.old ≡ 64 }
    ensures { w.new ≡ sums 64 k.now w.old }
{
    for i in 0..64 {
        w[i] = add(k[i], w[i]);
    }
}

// Round i.
fn step(s: State, x: &[u32; 64], i: usize) -> State
    requires { i < 64 }
    ensures { (z : D.State) → s ≡ rounds_by x.now i z → result ≡ rounds_by x.now (i + 1) z }
{
    round(s, x[i])
}

// Sixteen rounds.
fn step16(st: State, x: &[u32; 64], i: usize) -> State
    requires { i ≤ 48 }
    ensures { (z : D.State) → st ≡ rounds_by x.now i z → result ≡ rounds_by x.now (i + 16) z }
{
    let s1 = step(st, x, i);
    let s2 = step(s1, x, i + 1);
    let s3 = step(s2, x, i + 2);
    let s4 = step(s3, x, i + 3);
    let s5 = step(s4, x, i + 4);
    let s6 = step(s5, x, i + 5);
    let s7 = step(s6, x, i + 6);
    let s8 = step(s7, x, i + 7);
    let s9 = step(s8, x, i + 8);
    let s10 = step(s9, x, i + 9);
    let s11 = step(s10, x, i + 10);
    let s12 = step(s11, x, i + 11);
    let s13 = step(s12, x, i + 12);
    let s14 = step(s13, x, i + 13);
    let s15 = step(s14, x, i + 14);
    step(s15, x, i + 15)
}

// The rounds of a block whose schedule is given with the round words added, and their sum with the state before.
pub fn compress_sums(state: State, sums: &[u32; 64]) -> State
    ensures { result ≡ S.plus state (rounds_by sums.now 64 state) }
{
    let mut t = state;
    for i in 0..4 {
        t = step16(t, sums, 16 * i);
    }
    sum(state, t)
}

// The block of `bytes` at `at`.
pub fn compress(state: State, k: &[u32; 64], bytes: &[u8], at: usize) -> State
    requires { at + 64 ≤ length bytes.now }
    ensures { result ≡ S.compress k.now state (take 64 (drop at bytes.now)) }
{
    let mut w = [0u32; 64];
    fill(&mut w, bytes, at);
    add_round_words(&mut w, k);
    compress_sums(state, &w)
}
