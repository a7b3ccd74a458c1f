// A hashes message: what it gets, worked out before anything is written; and taking it.
ghost use Rattle.std.specs.Prelude.{◌≡◌, true, ◌+◌, ◌*◌, ◌≤◌, length};
ghost use Rattle.cells.specs.Cells.{Room};
ghost use Rattle.cells.specs.Entries.{put_all, fresh};
ghost use Rattle.store.specs.Store.{usable, blocks_of, height_of, positions};
ghost use Rattle.numbers.specs.Refusals.{answer_of, code_of};
ghost use Rattle.header.specs.Header.{header_size, Small, rules_kept, place_of};
ghost use Rattle.settling.specs.Span.{room_size};
ghost use Rattle.settling.specs.Subtree.{Heaped};
ghost use Rattle.messages.specs.Take.{header_number, given, settled, anchor, padded, anchored, body_number, take_after, take_answer, reject_answer};
ghost use Rattle.messages.specs.Asks.{first_number, Placed, Carried, Ready, compared, answer_to, left_by};

use crate::padded::{run_padded, uncles_padded};
use cells::{hash_of, held};
use header::{HEADER_SIZE, Header, Place, header_of, is_hashes, is_reject, keeps_rules, place_of};
use numbers::{Answer, Refused};
use octets::{hash_at, same};
use settling::{ROOM_SIZE, ancestor, climb, look_parts, write_looked, write_path};
use store::{blocks_of, facts_root, height_of, is_usable};
use tree::values::pad_value;

// 9, 1, 2: the store, the message's form, its root. `form` is the answer of a test, which differs by message; it switches nothing.
pub fn check_first(store: &[u8], message: &[u8], form: bool) -> Result<(), Refused>
    requires { form ≡ true → header_size ≤ length message.now }
    ensures { code_of result ≡ first_number form store.now message.now }
{
    if !is_usable(store) {
        return Err(Refused::Unusable);
    }
    if !form {
        return Err(Refused::NoMessage);
    }
    if !same(facts_root(store), hash_at(message, 1)) {
        return Err(Refused::OtherRoot);
    }
    Ok(())
}

// Whether a header keeps the rules in the store's tree.
pub fn rules_in(store: &[u8], header: Header) -> bool
    requires { (usable store.now ≡ true) × Small header }
    ensures { result ≡ rules_kept header (height_of store.now) }
{
    keeps_rules(header, height_of(store))
}

// The place in the store's tree that such a header names.
pub fn place_in(store: &[u8], header: Header) -> Place
    requires { (usable store.now ≡ true) × Small header × (rules_kept header (height_of store.now) ≡ true) }
    ensures { result ≡ place_of header (height_of store.now) }
{
    place_of(header, height_of(store))
}

// 9, 1, 2, 3: the same for every message, but for its form.
pub fn check_header(store: &[u8], message: &[u8], form: bool) -> Result<(), Refused>
    requires { form ≡ true → header_size ≤ length message.now }
    ensures { code_of result ≡ header_number form store.now message.now }
{
    check_first(store, message, form)?;
    if !rules_in(store, header_of(message)) {
        return Err(Refused::RuleBroken);
    }
    Ok(())
}

fn rejected(store: &[u8], message: &[u8]) -> Result<u64, Refused>
    ensures { answer_of result ≡ reject_answer store.now message.now }
{
    let form = is_reject(message);
    check_header(store, message, form)?;
    Ok(0)
}

// A reject that comes in changes nothing.
pub fn take_reject(store: &[u8], message: &[u8]) -> Answer
    ensures { result ≡ reject_answer store.now message.now }
{
    Answer::from(rejected(store, message))
}

// Number 5: whether the given hashes at padding positions have their values, for a file of `blocks` blocks.
fn is_padded(message: &[u8], header: Header, place: Place, blocks: usize) -> bool
    requires { Carried (length message.now) header place }
    ensures { result ≡ padded message.now header place blocks }
{
    let len = header.len;
    let base = header.base;
    let index = header.index;
    let k = place.k;
    let u = place.u;
    let e = HEADER_SIZE + 32 * len;
    let f = e + 32 * u;
    let run = &message[HEADER_SIZE..e];
    let right = run_padded(run, blocks, base, index, len);
    if right {
        let hashes = &message[e..f];
        let l = base + k;
        let v = pad_value(l);
        let i = index / len;
        return uncles_padded(hashes, blocks, 0, u, l, i, v);
    }
    false
}

// 7, 8 or 0, where the anchor a is held: everything that the message settles is worked out, and compared with the anchor and
// with what is held. Nothing is written to the store.
fn compare(
    store: &[u8],
    message: &[u8],
    room: &mut [u8],
    header: Header,
    place: Place,
    a: usize,
) -> Result<(), Refused>
    requires { Ready (length store.now) (length message.now) (height_of store.now) header place × (a ≡ anchor place) × (length room.old ≡ room_size) }
    ensures { (code_of result ≡ compared store.now message.now place a) × Heaped (given message.now place.k) place.k 0 room.new }
{
    let len = header.len;
    let k = place.k;
    let u = place.u;
    let top = place.top;
    let e = HEADER_SIZE + 32 * len;
    let f = e + 32 * u;
    let pad = [0u8; 32];
    let run = &message[HEADER_SIZE..e];
    let hashes = &message[e..f];
    let low = look_parts(store, run, pad, room, k, top, 0);
    let v = low.hash;
    let high = climb(store, hashes, 0, u, top, v);
    let w = high.hash;
    let alike = same(hash_of(store, a), w);
    if !alike {
        return Err(Refused::Differs);
    }
    let all = low.agrees && high.agrees;
    if !all {
        return Err(Refused::Conflict);
    }
    Ok(())
}

// Every position that the message settles becomes held; how many of them were not. The run's are in the room, if it holds so many.
fn write(store: &mut [u8], message: &[u8], room: &mut [u8], header: Header, place: Place) -> u64
    requires { Ready (length store.old) (length message.now) (height_of store.old) header place × (length room.old ≡ room_size) × Heaped (given message.now place.k) place.k 0 room.old }
    ensures { (result ≡ fresh store.old (settled message.now place)) × (store.new ≡ put_all store.old (settled message.now place)) }
{
    let len = header.len;
    let k = place.k;
    let u = place.u;
    let top = place.top;
    let e = HEADER_SIZE + 32 * len;
    let f = e + 32 * u;
    let pad = [0u8; 32];
    let run = &message[HEADER_SIZE..e];
    let hashes = &message[e..f];
    let low = write_looked(store, run, pad, room, k, top, 0);
    let v = low.hash;
    let c = write_path(store, hashes, 0, u, top, v);
    low.new + c
}

// 7, 8 or 0, where the anchor a is held; on 0 the message is taken. The room is lent to both passes.
fn settle(
    store: &mut [u8],
    message: &[u8],
    room: &mut [u8],
    header: Header,
    place: Place,
    a: usize,
) -> Result<u64, Refused>
    requires { Ready (length store.old) (length message.now) (height_of store.old) header place × (a ≡ anchor place) × (length room.old ≡ room_size) }
    ensures { (answer_of result ≡ answer_to (compared store.old message.now place a) store.old (settled message.now place)) × (store.new ≡ left_by (compared store.old message.now place a) store.old (settled message.now place)) }
{
    compare(store, message, room, header, place, a)?;
    let c = write(store, message, room, header, place);
    Ok(c)
}

// 6, 7, 8 or 0, for a message of the right size and with right padding. Nothing is hashed if the anchor is not held.
fn take_anchored(
    store: &mut [u8],
    message: &[u8],
    header: Header,
    place: Place,
) -> Result<u64, Refused>
    requires { Ready (length store.old) (length message.now) (height_of store.old) header place }
    ensures { (answer_of result ≡ answer_to (anchored store.old message.now place) store.old (settled message.now place)) × (store.new ≡ left_by (anchored store.old message.now place) store.old (settled message.now place)) }
{
    let a = ancestor(place.top, place.u);
    if !held(store, a) {
        return Err(Refused::NoAnchor);
    }
    let mut room = [0u8; ROOM_SIZE];
    settle(store, message, &mut room, header, place, a)
}

// 4, 5, 6, 7, 8 or 0, for a header that keeps the rules.
fn take_body(
    store: &mut [u8],
    message: &[u8],
    header: Header,
    place: Place,
    blocks: usize,
) -> Result<u64, Refused>
    requires { Placed (height_of store.old) header place × Room (positions (height_of store.old)) store.old × (blocks ≡ blocks_of store.old) }
    ensures { (answer_of result ≡ answer_to (body_number store.old message.now header place) store.old (settled message.now place)) × (store.new ≡ left_by (body_number store.old message.now header place) store.old (settled message.now place)) }
{
    if message.len() != HEADER_SIZE + 32 * (header.len + place.u) {
        return Err(Refused::WrongSize);
    }
    if !is_padded(message, header, place, blocks) {
        return Err(Refused::WrongPadding);
    }
    take_anchored(store, message, header, place)
}

fn taken(store: &mut [u8], message: &[u8]) -> Result<u64, Refused>
    ensures answer { answer_of result ≡ take_answer store.old message.now }
    ensures left { store.new ≡ take_after store.old message.now }
{
    let form = is_hashes(message);
    check_header(store, message, form)?;
    let header = header_of(message);
    let place = place_in(store, header);
    let blocks = blocks_of(store);
    take_body(store, message, header, place, blocks)
}

// Takes a hashes message, or refuses it and leaves the store as it was: 9, 1, 2, 3, 4, 5, 6, 7, 8 in this order.
pub fn take(store: &mut [u8], message: &[u8]) -> Answer
    ensures { (result ≡ take_answer store.old message.now) × (store.new ≡ take_after store.old message.now) }
{
    Answer::from(taken(store, message))
}
