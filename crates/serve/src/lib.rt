// A request for hashes served: answered by a hashes message if all are held, by a reject if not. The store is only looked at.
#![tactic(auto)]

ghost use Rattle.std.specs.Prelude.{◌≡◌, true, ◌∷◌, ◌+◌, ◌*◌, ◌^◌, ◌≤◌, length};
ghost use Rattle.limits.specs.Limits.{tallest_tree};
ghost use Rattle.octets.specs.Octets.{pasted};
ghost use Rattle.cells.specs.Cells.{Room};
ghost use Rattle.store.specs.Store.{usable};
ghost use Rattle.header.specs.Header.{header_size, header_bytes, is_request};
ghost use Rattle.messages.specs.Take.{header_number, place_in};
ghost use Rattle.serve.specs.Serve as S;
ghost use Rattle.numbers.specs.Refusals.{number_of};
ghost use Rattle.serve.specs.Asks.{Reach, Asked, fit_answer, fit_after};

use cells::{hash_of, held};
use header::{HASHES, HEADER_SIZE, Place, REJECT, header_of, is_request};
use messages::take::{place_in, rules_in};
use numbers::{Answer, Refused, refusal, success};
use octets::{hash_at, put_hash, same};
use settling::sibling;
use store::{facts_root, is_usable};

// Whether the c positions from number n on are all held.
fn held_run(store: &[u8], n: usize, c: usize) -> bool
    requires { Room (n + c) store.now }
    ensures { result ≡ S.held_run store.now n c }
{
    for i in 0..c {
        let there = held(store, n + i);
        if !there {
            return false;
        }
    }
    true
}

// Whether the u uncles from position n upward are all held. It shares the way up alone with copy_uncles: one stops at an uncle, the other copies it.
fn held_uncles(store: &[u8], u: usize, n: usize) -> bool
    requires { Room (n + 2) store.now }
    ensures { result ≡ S.held_uncles store.now u n }
{
    let mut x = n;
    for i in 0..u {
        let q = sibling(x);
        let there = held(store, q);
        if !there {
            return false;
        }
        x = x / 2;
    }
    true
}

// The hashes below a position k layers down.
fn run_count(k: usize) -> usize
    requires { k ≤ tallest_tree }
    ensures { (result ≡ 2 ^ k) × (result ≤ 2 ^ tallest_tree) }
{
    1 << k
}

// Whether run and uncles of a place are all held.
fn all_held(store: &[u8], place: Place) -> bool
    requires { Reach (length store.now) place }
    ensures { result ≡ S.all_held store.now place }
{
    let k = place.k;
    let u = place.u;
    let top = place.top;
    let c = run_count(k);
    let n = top * c;
    held_run(store, n, c) && held_uncles(store, u, top)
}

// Writes the 49 bytes before the hashes: an id, then the request's own 48.
fn write_head(out: &mut [u8], message: &[u8], id: u8)
    requires { (header_size ≤ length out.old) × (header_size ≤ length message.now) }
    ensures { out.new ≡ pasted out.old 0 (id ∷ header_bytes message.now) }
{
    out[0] = id;
    for i in 1..HEADER_SIZE {
        out[i] = message[i];
    }
}

// Hashes are copied one by one: copy_from_slice is a call for each, and slower.
// Copies the hashes of the c positions from number n on, one after the other, from `at` on.
fn copy_run(store: &[u8], out: &mut [u8], at: usize, n: usize, c: usize)
    requires { Room (n + c) store.now × (at + 32 * c ≤ length out.old) }
    ensures { out.new ≡ pasted out.old at (S.run_hashes store.now n c) }
{
    for i in 0..c {
        let h = hash_of(store, n + i);
        put_hash(out, at + 32 * i, h);
    }
}

// Copies the hashes of the u uncles from position n upward, from `at` on.
fn copy_uncles(store: &[u8], out: &mut [u8], at: usize, u: usize, n: usize)
    requires { Room (n + 2) store.now × (at + 32 * u ≤ length out.old) }
    ensures { out.new ≡ pasted out.old at (S.uncle_hashes store.now u n) }
{
    let mut x = n;
    for i in 0..u {
        let q = sibling(x);
        let h = hash_of(store, q);
        put_hash(out, at + 32 * i, h);
        x = x / 2;
    }
}

// Sends the hashes message, or gives 11 where the output is too short for it.
fn send_reply(store: &[u8], message: &[u8], place: Place, out: &mut [u8]) -> Answer
    requires { (header_number (is_request message.now) store.now message.now ≡ 0) × (place ≡ place_in store.now message.now) }
    ensures { (result ≡ fit_answer 0 (S.reply_to store.now message.now) out.old) × (out.new ≡ fit_after (S.reply_to store.now message.now) out.old) }
{
    let k = place.k;
    let u = place.u;
    let top = place.top;
    let c = run_count(k);
    let n = top * c;
    let past = HEADER_SIZE + 32 * c;
    let size = past + 32 * u;
    if out.len() < size {
        return refusal(numbers::NO_ROOM);
    }
    write_head(out, message, HASHES);
    copy_run(store, out, HEADER_SIZE, n, c);
    copy_uncles(store, out, past, u, top);
    success(size as u64)
}

// Sends the reject with that number, or gives 11 where the output is too short for it.
fn send_reject(message: &[u8], out: &mut [u8], why: Refused) -> Answer
    requires { length message.now ≡ header_size }
    ensures { (result ≡ fit_answer (number_of why) (S.reject_to message.now) out.old) × (out.new ≡ fit_after (S.reject_to message.now) out.old) }
{
    if out.len() < HEADER_SIZE {
        return refusal(numbers::NO_ROOM);
    }
    write_head(out, message, REJECT);
    let count = HEADER_SIZE as u64;
    Answer {
        number: u32::from(why),
        count,
    }
}

// The place that a request to a store asks for, where all its hashes are held: else 2, 3 or 12. (check_header would test for 9 and 1 once more.)
fn asked(store: &[u8], message: &[u8]) -> Result<Place, Refused>
    requires { (usable store.now ≡ true) × (is_request message.now ≡ true) }
    ensures { Asked store.now message.now result }
{
    if !same(facts_root(store), hash_at(message, 1)) {
        return Err(Refused::OtherRoot);
    }
    let header = header_of(message);
    if !rules_in(store, header) {
        return Err(Refused::RuleBroken);
    }
    let place = place_in(store, header);
    if !all_held(store, place) {
        return Err(Refused::NotHeld);
    }
    Ok(place)
}

// Serves a request: the number, and how many bytes of `out` are the message to send back.
pub fn serve(store: &[u8], message: &[u8], out: &mut [u8]) -> Answer
    ensures { (result ≡ S.serve_answer store.now message.now out.old) × (out.new ≡ S.serve_after store.now message.now out.old) }
{
    if !is_usable(store) {
        return refusal(numbers::UNUSABLE);
    }
    if !is_request(message) {
        return refusal(numbers::NO_MESSAGE);
    }
    match asked(store, message) {
        Ok(place) => send_reply(store, message, place, out),
        Err(why) => send_reject(message, out, why),
    }
}
