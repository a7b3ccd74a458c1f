// Frames of BEP 3: a 32-bit big-endian length, then so many bytes, a message that begins with its id; length 0 is a keep-alive.
// Which ids are known, how many bytes their messages have, and the frame of a message written.
#![tactic(auto)]

ghost use Rattle.std.specs.Prelude.{◌≡◌, ◌+◌, ◌≤◌, length, Some};
ghost use Rattle.numbers.specs.Refusals.{answer_of};
ghost use Rattle.octets.specs.Octets.{cut, pasted};
ghost use Rattle.frames.specs.Frames as F;

use numbers::{Answer, Refused};

// The known ids, each with its number on the wire.
#[derive(Clone, Copy, Debug, PartialEq, Eq)]
pub enum Id {
    Choke = 0,
    Unchoke = 1,
    Interested = 2,
    NotInterested = 3,
    Have = 4,
    Bitfield = 5,
    Request = 6,
    Piece = 7,
    Cancel = 8,
    Extended = 20,
    HashRequest = 21,
    Hashes = 22,
    HashReject = 23,
}

// A number that is no known id.
#[derive(Clone, Copy, Debug, PartialEq, Eq)]
pub struct UnknownId(pub usize);

// How many bytes the messages of an id have, the id among them.
#[derive(Clone, Copy, Debug, PartialEq, Eq)]
pub enum Sizes {
    Exactly(usize),
    AtLeast(usize),
}

impl TryFrom<usize> for Id {
    type Error = UnknownId;

    ghost try_from_gives = { F.Read };

    #[tactic(auto, unfolding(crate::specs::Frames::sizes_of, crate::specs::Frames::sizes_in, crate::specs::Frames::table))]
    fn try_from(number: usize) -> Result<Id, UnknownId> {
        match number {
            0 => Ok(Id::Choke),
            1 => Ok(Id::Unchoke),
            2 => Ok(Id::Interested),
            3 => Ok(Id::NotInterested),
            4 => Ok(Id::Have),
            5 => Ok(Id::Bitfield),
            6 => Ok(Id::Request),
            7 => Ok(Id::Piece),
            8 => Ok(Id::Cancel),
            20 => Ok(Id::Extended),
            21 => Ok(Id::HashRequest),
            22 => Ok(Id::Hashes),
            23 => Ok(Id::HashReject),
            _ => Err(UnknownId(number)),
        }
    }
}

impl Id {
    // The sizes of its messages.
    #[tactic(auto, unfolding(crate::specs::Frames::sizes_of, crate::specs::Frames::sizes_in, crate::specs::Frames::table))]
    pub fn sizes(self) -> Sizes
        ensures { F.sizes_of (F.number_of self) ≡ Some result }
    {
        match self {
            Id::Choke | Id::Unchoke | Id::Interested | Id::NotInterested => Sizes::Exactly(1),
            Id::Have => Sizes::Exactly(5),
            Id::Request | Id::Cancel => Sizes::Exactly(13),
            Id::HashRequest | Id::HashReject => Sizes::Exactly(49),
            Id::Bitfield | Id::Extended => Sizes::AtLeast(2),
            Id::Piece => Sizes::AtLeast(9),
            Id::Hashes => Sizes::AtLeast(49),
        }
    }
}

// The sizes of the messages of an id, if it is known.
pub fn sizes_of(id: usize) -> Option<Sizes>
    ensures { result ≡ F.sizes_of id }
{
    match Id::try_from(id) {
        Ok(known) => Some(known.sizes()),
        Err(_) => None,
    }
}

// Whether `size` bytes are right for a message of these sizes.
#[tactic(auto, unfolding(crate::specs::Frames::right_for))]
pub fn right_for(sizes: Sizes, size: usize) -> bool
    ensures { result ≡ F.right_for sizes size }
{
    match sizes {
        Sizes::Exactly(n) => size == n,
        Sizes::AtLeast(n) => n <= size,
    }
}

// The 32 bytes of `bytes` from i on into room, as many places behind `at`.
fn put_part(room: &mut [u8], at: usize, bytes: &[u8], i: usize)
    requires { (i + 32 ≤ length bytes.now) × (at + length bytes.now ≤ length room.old) }
    ensures { room.new ≡ pasted room.old (at + i) (cut bytes.now i 32) }
{
    let part: [u8; 32] = octets::hash_at(bytes, i);
    octets::put_hash(room, at + i, part);
}

// `bytes` into room from `at` on, byte by byte.
fn put_few(room: &mut [u8], at: usize, bytes: &[u8])
    requires { at + length bytes.now ≤ length room.old }
    ensures { room.new ≡ pasted room.old at bytes.now }
{
    for i in 0..bytes.len() {
        room[at + i] = bytes[i];
    }
}

// 64 bytes of `bytes` or more into room, 64 at a time; the last 64 once more, so that none are left over.
fn put_many(room: &mut [u8], at: usize, bytes: &[u8])
    requires { (64 ≤ length bytes.now) × (at + length bytes.now ≤ length room.old) }
    ensures { room.new ≡ pasted room.old at bytes.now }
{
    let n = bytes.len();
    for k in 0..n / 64 {
        put_part(room, at, bytes, 64 * k);
        put_part(room, at, bytes, 64 * k + 32);
    }
    put_part(room, at, bytes, n - 64);
    put_part(room, at, bytes, n - 32);
}

// `bytes` into room from `at` on, in parts of 32 bytes: copy_from_slice is a call, and for a block more instructions (docs/BENCHMARKS.md, "Streams").
pub fn put_bytes(room: &mut [u8], at: usize, bytes: &[u8])
    requires { at + length bytes.now ≤ length room.old }
    ensures { room.new ≡ pasted room.old at bytes.now }
{
    if bytes.len() < 64 {
        put_few(room, at, bytes);
    } else {
        put_many(room, at, bytes);
    }
}

// Whether a message may be framed: no bytes make the keep-alive, others begin with a known id and have a right size.
fn is_sendable(message: &[u8]) -> bool
    ensures { result ≡ F.sendable message.now }
{
    let n = message.len();
    if n == 0 {
        return true;
    }
    let id = octets::wide(message[0]);
    match sizes_of(id) {
        Some(sizes) => right_for(sizes, n),
        None => false,
    }
}

fn framed(message: &[u8], out: &mut [u8]) -> Result<u64, Refused>
    ensures answer { answer_of result ≡ F.frame_answer message.now out.old }
    ensures left { out.new ≡ F.frame_after message.now out.old }
{
    let n = message.len();
    if limits::LONGEST_FRAME < n {
        return Err(Refused::FrameTooLong);
    }
    if !is_sendable(message) {
        return Err(Refused::NoMessage);
    }
    let size = 4 + n;
    if out.len() < size {
        return Err(Refused::NoRoom);
    }
    octets::put_number(out, 0, 4, n);
    put_bytes(out, 4, message);
    Ok(size as u64)
}

// Writes the frame of a message: 30, 1, 11, or 0 and the frame's size. Bytes behind the frame stay.
pub fn frame(message: &[u8], out: &mut [u8]) -> Answer
    ensures { (result ≡ F.frame_answer message.now out.old) × (out.new ≡ F.frame_after message.now out.old) }
{
    Answer::from(framed(message, out))
}
