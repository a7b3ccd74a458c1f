// The byte stream from a neighbour (BEP 3), cut anywhere. The state goes in and out by value, the frame under way stands in a lent room.
#![tactic(auto)]

ghost use Rattle.std.specs.Prelude.{◌≡◌, ◌+◌, ◌*◌, ◌^◌, ◌≤◌, ◌<◌, min, ltb, length};
ghost use Rattle.stream.specs.Reading as R;
ghost use Rattle.stream.specs.Standing.{Going};
ghost use Rattle.stream.specs.Steps as S;

// The number that the prefix's bytes make so far, and how many of its 4 they are; bytes of the frame read; what is done with them.
#[repr(C)]
#[derive(Clone, Copy)]
pub struct Stream {
    pub length: u32,
    pub length_size: u32,
    pub read: u32,
    pub mode: u32,
}

// A number; what is heard; how many of the bytes given were used; a message's size; the state then.
#[repr(C)]
#[derive(Clone, Copy)]
pub struct Heard {
    pub number: u32,
    pub event: u32,
    pub used: u64,
    pub size: u64,
    pub state: Stream,
}

// What is done with a frame: put into the room;
pub const STORING: u32 = 0;

// skipped, because its id is unknown,
pub const SKIPPING_UNKNOWN: u32 = 1;

// or its size is wrong for its id, with 1,
pub const SKIPPING_WRONG: u32 = 2;

// or it is larger than the room, with 11.
pub const SKIPPING_LARGE: u32 = 3;

// The stream is refused, with 30.
pub const REFUSING: u32 = 4;

// What is heard beside 0: nothing, a message, a keep-alive.
pub const NO_EVENT: u32 = 0;

pub const MESSAGE: u32 = 1;

pub const KEEP_ALIVE: u32 = 2;

// What is done with a frame of l bytes that begins with id.
fn mode_of(id: usize, l: usize) -> u32
    ensures { result ≡ R.mode_of id l }
{
    match frames::sizes_of(id) {
        Some(sizes) => {
            if frames::right_for(sizes, l) {
                return STORING;
            }
            SKIPPING_WRONG
        }
        None => SKIPPING_UNKNOWN,
    }
}

// Only a frame not longer than the room, of n bytes, is stored.
fn fitting(l: usize, n: usize, chosen: u32) -> u32
    ensures { result ≡ R.fitting l n chosen }
{
    if chosen == STORING {
        if n < l {
            return SKIPPING_LARGE;
        }
        return STORING;
    }
    chosen
}

// What is done with the frame from its next byte b on.
fn mode_at(before: Stream, n: usize, b: u8) -> u32
    ensures { result ≡ R.mode_at before n b }
{
    let l = before.length as usize;
    if before.read == 0 {
        let id = octets::wide(b);
        let m = mode_of(id, l);
        return fitting(l, n, m);
    }
    fitting(l, n, before.mode)
}

// Bytes of a frame into the room if the frame is stored.
fn keep(mode: u32, room: &mut [u8], at: usize, bytes: &[u8])
    requires { mode ≡ 0 → at + length bytes.now ≤ length room.old }
    ensures { room.new ≡ R.kept mode room.old at bytes.now }
{
    if mode == STORING {
        frames::put_bytes(room, at, bytes);
    }
}

// An answer at which nothing is heard.
fn without_event(number: u32, used: usize, before: Stream) -> Heard
    ensures { result ≡ S.without_event number used before }
{
    Heard {
        number,
        event: NO_EVENT,
        used: used as u64,
        size: 0,
        state: before,
    }
}

// A state by its four numbers.
fn standing(length: usize, size: u32, read: usize, mode: u32) -> Stream
    requires { (length < 4294967296) × (read < 4294967296) }
    ensures { result ≡ R.standing length size read mode }
{
    Stream {
        length: length as u32,
        length_size: size,
        read: read as u32,
        mode,
    }
}

// Between two frames, and before the first.
pub fn begin() -> Stream
    ensures { result ≡ R.between }
{
    Stream {
        length: 0,
        length_size: 0,
        read: 0,
        mode: STORING,
    }
}

// What is given at the end of a frame of l bytes, n of which came now.
fn ended(l: usize, mode: u32, n: usize) -> Heard
    ensures { result ≡ S.end_answer l mode n }
{
    let next = begin();
    if mode == STORING {
        return Heard {
            number: numbers::DONE,
            event: MESSAGE,
            used: n as u64,
            size: l as u64,
            state: next,
        };
    }
    if mode == SKIPPING_UNKNOWN {
        return without_event(numbers::DONE, n, next);
    }
    if mode == SKIPPING_WRONG {
        return without_event(numbers::NO_MESSAGE, n, next);
    }
    without_event(numbers::NO_ROOM, n, next)
}

// The prefix is whole and says l: too long, a keep-alive, or a frame follows.
fn prefixed(l: usize) -> Heard
    requires { l < 4294967296 }
    ensures { result ≡ S.prefixed_answer l }
{
    if limits::LONGEST_FRAME < l {
        let refused = standing(l, 4, 0, REFUSING);
        return without_event(numbers::FRAME_TOO_LONG, 1, refused);
    }
    if l == 0 {
        return Heard {
            number: numbers::DONE,
            event: KEEP_ALIVE,
            used: 1,
            size: 0,
            state: begin(),
        };
    }
    let next = standing(l, 4, 0, STORING);
    without_event(numbers::DONE, 1, next)
}

// A byte of the prefix.
fn prefix_byte(before: Stream, b: usize) -> Heard
    requires { (before.length * 256 + b < 4294967296) × (before.length_size < 4) }
    ensures { result ≡ S.prefix_answer before b }
{
    let l = before.length as usize * 256 + b;
    if before.length_size == 3 {
        return prefixed(l);
    }
    let size = before.length_size + 1;
    let next = standing(l, size, 0, STORING);
    without_event(numbers::DONE, 1, next)
}

// A run of the bytes of a frame: to its end, or to the end of the bytes.
fn frame_run(before: Stream, bytes: &[u8], room: &mut [u8]) -> Heard
    requires { Going before (length room.old) × (4 ≤ before.length_size) × (0 < length bytes.now) }
    ensures { (result ≡ S.frame_answer_of before room.old bytes.now) × (room.new ≡ (S.frame_step before room.old bytes.now).room) }
{
    let l = before.length as usize;
    let read = before.read as usize;
    let left = l - read;
    let size = room.len();
    let first = bytes[0];
    let mode = mode_at(before, size, first);
    let n = left.min(bytes.len());
    keep(mode, room, read, &bytes[0..n]);
    if n == left {
        return ended(l, mode, n);
    }
    let on = read + n;
    let next = standing(l, 4, on, mode);
    without_event(numbers::DONE, n, next)
}

// The next byte of the prefix, or a run of the frame.
fn step(before: Stream, bytes: &[u8], room: &mut [u8]) -> Heard
    requires { Going before (length room.old) × (0 < length bytes.now) }
    ensures { S.Stepping before room.old bytes.now result room.new }
{
    if before.length_size < 4 {
        let b = octets::wide(bytes[0]);
        return prefix_byte(before, b);
    }
    frame_run(before, bytes, room)
}

// Up to the first byte at which something is heard, or to the end.
fn run(before: Stream, bytes: &[u8], room: &mut [u8]) -> Heard
    requires { Going before (length room.old) }
    ensures { (result ≡ R.answer_of (R.hears before room.old bytes.now)) × (room.new ≡ (R.hears before room.old bytes.now).room) }
{
    let mut t = before;
    let mut at: usize = 0;
    while at < bytes.len() {
        let p = step(t, &bytes[at..], room);
        at += p.used as usize;
        let next = p.state;
        if p.number != numbers::DONE {
            return Heard {
                number: p.number,
                event: p.event,
                used: at as u64,
                size: p.size,
                state: next,
            };
        }
        if p.event != NO_EVENT {
            return Heard {
                number: p.number,
                event: p.event,
                used: at as u64,
                size: p.size,
                state: next,
            };
        }
        t = next;
    }
    without_event(numbers::DONE, at, t)
}

// Whether k bytes of a prefix can make the number l. Written out: `pow` is a loop, and this is asked of each byte of a prefix.
fn within(l: usize, k: u32) -> bool
    requires { k < 4 }
    ensures { result ≡ ltb l (256 ^ k) }
{
    if k == 0 {
        return l < 1;
    }
    if k == 1 {
        return l < 256;
    }
    if k == 2 {
        return l < 65536;
    }
    l < 16777216
}

// Whether some bytes give such a state in the prefix.
fn usable_prefix(before: Stream) -> bool
    requires { before.length_size < 4 }
    ensures { result ≡ R.usable_prefix before }
{
    if before.read != 0 {
        return false;
    }
    if before.mode != STORING {
        return false;
    }
    within(before.length as usize, before.length_size)
}

// Or in a frame, and has not stored more than n bytes.
fn usable_frame(before: Stream, n: usize) -> bool
    ensures { result ≡ R.usable_frame before n }
{
    if limits::LONGEST_FRAME < before.length as usize {
        return false;
    }
    if before.length <= before.read {
        return false;
    }
    if before.mode == STORING {
        return before.read as usize <= n;
    }
    if before.read == 0 {
        return false;
    }
    before.mode < REFUSING
}

// Whether some bytes give such a state, in this room.
fn is_usable(before: Stream, n: usize) -> bool
    ensures { result ≡ R.usable before n }
{
    if before.length_size < 4 {
        return usable_prefix(before);
    }
    if before.length_size != 4 {
        return false;
    }
    if before.mode == REFUSING {
        if before.read != 0 {
            return false;
        }
        return limits::LONGEST_FRAME < before.length as usize;
    }
    usable_frame(before, n)
}

// Hears bytes: 9, 30, 1, 11 or 0; at most one message, keep-alive or number a call.
pub fn hear(before: Stream, bytes: &[u8], room: &mut [u8]) -> Heard
    ensures { (result ≡ R.hear_answer before room.old bytes.now) × (room.new ≡ R.hear_room before room.old bytes.now) }
{
    let n = room.len();
    if !is_usable(before, n) {
        return without_event(numbers::UNUSABLE, 0, before);
    }
    if before.mode == REFUSING {
        return without_event(numbers::FRAME_TOO_LONG, 0, before);
    }
    run(before, bytes, room)
}
