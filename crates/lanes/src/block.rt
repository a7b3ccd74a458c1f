// One block in each of eight lanes: each loop over the lanes does the same to all eight, and the compiler makes vector
// instructions of it. That needs arrays that are locals of the function for a block, with all its parts inlined: a part that
// is long has one caller only, or the vectors are lost without a word.
ghost use Rattle.std.specs.Prelude.{◌≡◌, ℕ, ◌+◌, ◌*◌, ◌<◌, ◌≤◌, length, take};
ghost use Rattle.octets.specs.Octets.{cut};
ghost use Rattle.bits.specs.Parsing.{words};
ghost use Rattle.rounds.specs.Block as B;
ghost use Rattle.rounds.specs.Sums.{sums, rounds_by};
ghost use Rattle.lanes.specs.Lanes.{lane, state_in};
ghost use Rattle.lanes.specs.Passes.{Beside, LanesPassed, Loading, Growing, Stepping, Rounding};

use bits::{add, small0, small1, word};
use rounds::{State, round};

// The state of `lane`.
pub fn lane_of(states: &[u32; 64], lane: usize) -> State
    requires { lane < 8 }
    ensures { result ≡ state_in states.now lane }
{
    State {
        a: states[lane],
        b: states[8 + lane],
        c: states[16 + lane],
        d: states[24 + lane],
        e: states[32 + lane],
        f: states[40 + lane],
        g: states[48 + lane],
        h: states[56 + lane],
    }
}

// `state` becomes the state of `lane`.
pub fn put_lane(states: &mut [u32; 64], lane: usize, state: State)
    requires { (lane < 8) × (length states.old ≡ 64) }
    ensures { (state_in states.new lane ≡ state) × Beside 8 lane states.old states.new }
{
    states[lane] = state.a;
    states[8 + lane] = state.b;
    states[16 + lane] = state.c;
    states[24 + lane] = state.d;
    states[32 + lane] = state.e;
    states[40 + lane] = state.f;
    states[48 + lane] = state.g;
    states[56 + lane] = state.h;
}

// The sixteen words of the block that starts at `at`, into lane j.
fn load_lane(w: &mut [u32; 512], bytes: &[u8], at: usize, j: usize)
    requires { (j < 8) × (at + 64 ≤ length bytes.now) × (length w.old ≡ 512) }
    ensures { (take 16 (lane 64 w.new j) ≡ words 16 (cut bytes.now at 64)) × Beside 64 j w.old w.new }
{
    for i in 0..16 {
        w[i * 8 + j] = word(bytes, at + i * 4);
    }
}

// Eight blocks, each `stride` bytes after the one before.
fn load(w: &mut [u32; 512], bytes: &[u8], at: usize, stride: usize)
    requires { (at + 7 * stride + 64 ≤ length bytes.now) × (length w.old ≡ 512) }
    ensures { LanesPassed 64 (Loading (λ (x : ℕ). cut bytes.now (at + x * stride) 64)) 8 w.old w.new }
{
    for j in 0..8 {
        load_lane(&mut *w, bytes, at + j * stride, j);
    }
}

// In lane j the word i + 16 from the sixteen before it.
fn grow(w: &mut [u32; 512], i: usize, j: usize)
    requires { (i < 48) × (j < 8) × (length w.old ≡ 512) }
    ensures { Growing i (i + 1) (lane 64 w.old j) (lane 64 w.new j) × Beside 64 j w.old w.new }
{
    w[(i + 16) * 8 + j] = add(
        add(
            add(small0(w[(i + 1) * 8 + j]), w[i * 8 + j]),
            w[(i + 9) * 8 + j],
        ),
        small1(w[(i + 14) * 8 + j]),
    );
}

// Four such words.
fn grow4(w: &mut [u32; 512], i: usize, j: usize)
    requires { (i ≤ 44) × (j < 8) × (length w.old ≡ 512) }
    ensures { Growing i (i + 4) (lane 64 w.old j) (lane 64 w.new j) × Beside 64 j w.old w.new }
{
    grow(&mut *w, i, j);
    grow(&mut *w, i + 1, j);
    grow(&mut *w, i + 2, j);
    grow(&mut *w, i + 3, j);
}

// Four such words in every lane.
fn grow_all(w: &mut [u32; 512], i: usize)
    requires { (i ≤ 44) × (length w.old ≡ 512) }
    ensures { LanesPassed 64 (λ (x : ℕ). Growing i (i + 4)) 8 w.old w.new }
{
    for j in 0..8 {
        grow4(&mut *w, i, j);
    }
}

// The message schedules of eight blocks.
fn fill(w: &mut [u32; 512], bytes: &[u8], at: usize, stride: usize)
    requires { (at + 7 * stride + 64 ≤ length bytes.now) × (length w.old ≡ 512) }
    ensures { (j : ℕ) → j < 8 → lane 64 w.new j ≡ B.schedule 48 (cut bytes.now (at + j * stride) 64) }
{
    load(&mut *w, bytes, at, stride);
    for i in 0..12 {
        grow_all(&mut *w, 4 * i);
    }
}

// Round i of lane j.
fn step(s: State, k: &[u32; 64], w: &[u32; 512], i: usize, j: usize) -> State
    requires { (i < 64) × (j < 8) }
    ensures { Stepping (sums 64 k.now (lane 64 w.now j)) i (i + 1) s result }
{
    round(s, add(k[i], w[i * 8 + j]))
}

// Four rounds of lane j.
fn step4(t: &mut [u32; 64], k: &[u32; 64], w: &[u32; 512], i: usize, j: usize)
    requires { (i ≤ 60) × (j < 8) × (length t.old ≡ 64) }
    ensures { Stepping (sums 64 k.now (lane 64 w.now j)) i (i + 4) (state_in t.old j) (state_in t.new j) × Beside 8 j t.old t.new }
{
    let s0 = lane_of(&*t, j);
    let s1 = step(s0, k, w, i, j);
    let s2 = step(s1, k, w, i + 1, j);
    let s3 = step(s2, k, w, i + 2, j);
    let s4 = step(s3, k, w, i + 3, j);
    put_lane(&mut *t, j, s4);
}

// Four rounds of every lane.
fn step_all(t: &mut [u32; 64], k: &[u32; 64], w: &[u32; 512], i: usize)
    requires { (i ≤ 60) × (length t.old ≡ 64) }
    ensures { LanesPassed 8 (Rounding (λ (x : ℕ). sums 64 k.now (lane 64 w.now x)) i (i + 4)) 8 t.old t.new }
{
    for j in 0..8 {
        step4(&mut *t, k, w, i, j);
    }
}

// All rounds of every lane.
fn steps(st: [u32; 64], k: &[u32; 64], w: &[u32; 512]) -> [u32; 64]
    ensures { (j : ℕ) → j < 8 → state_in result j ≡ rounds_by (sums 64 k.now (lane 64 w.now j)) 64 (state_in st j) }
{
    let mut t = st;
    for i in 0..16 {
        step_all(&mut t, k, w, 4 * i);
    }
    t
}

fn sum_all(st: [u32; 64], t: [u32; 64]) -> [u32; 64]
    ensures { (length result ≡ 64) × ((x : ℕ) → x < 8 → state_in result x ≡ B.plus (state_in st x) (state_in t x)) }
{
    let mut r = [0u32; 64];
    for i in 0..64 {
        r[i] = add(st[i], t[i]);
    }
    r
}

// One block in each lane: lane j's starts at `at + j * stride`.
pub fn compress8(
    states: [u32; 64],
    k: &[u32; 64],
    bytes: &[u8],
    at: usize,
    stride: usize,
) -> [u32; 64]
    requires { at + 7 * stride + 64 ≤ length bytes.now }
    ensures { (length result ≡ 64) × ((j : ℕ) → j < 8 → state_in result j ≡ B.compress k.now (state_in states j) (cut bytes.now (at + j * stride) 64)) }
{
    let mut w = [0u32; 512];
    fill(&mut w, bytes, at, stride);
    sum_all(states, steps(states, k, &w))
}

// Round i of a block that is the same in every lane, by the sum of its two words.
fn known_round(s: State, x: &[u32; 64], i: usize) -> State
    requires { i < 64 }
    ensures { Stepping x.now i (i + 1) s result }
{
    round(s, x[i])
}

fn known4(t: &mut [u32; 64], x: &[u32; 64], i: usize, j: usize)
    requires { (i ≤ 60) × (j < 8) × (length t.old ≡ 64) }
    ensures { Stepping x.now i (i + 4) (state_in t.old j) (state_in t.new j) × Beside 8 j t.old t.new }
{
    let s0 = lane_of(&*t, j);
    let s1 = known_round(s0, x, i);
    let s2 = known_round(s1, x, i + 1);
    let s3 = known_round(s2, x, i + 2);
    let s4 = known_round(s3, x, i + 3);
    put_lane(&mut *t, j, s4);
}

fn known_all(t: &mut [u32; 64], x: &[u32; 64], i: usize)
    requires { (i ≤ 60) × (length t.old ≡ 64) }
    ensures { LanesPassed 8 (Rounding (λ (j : ℕ). x.now) i (i + 4)) 8 t.old t.new }
{
    for j in 0..8 {
        known4(&mut *t, x, i, j);
    }
}

// A block that is the same in every lane, by the sums of its words and the round words: no schedule is made.
pub fn compress_sums8(states: [u32; 64], sums: &[u32; 64]) -> [u32; 64]
    ensures { (length result ≡ 64) × ((j : ℕ) → j < 8 → state_in result j ≡ B.plus (state_in states j) (rounds_by sums.now 64 (state_in states j))) }
{
    let mut t = states;
    for i in 0..16 {
        known_all(&mut t, sums, 4 * i);
    }
    sum_all(states, t)
}
