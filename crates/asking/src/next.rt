// The next request for a layer: the base run with the lowest wanted position not held, and the fewest proof layers whose anchor is held.
ghost use Rattle.std.specs.Prelude.{◌≡◌, true, ◌+◌, ◌≤◌};
ghost use Rattle.limits.specs.Limits.{tallest_tree};
ghost use Rattle.numbers.specs.Refusals.{code_of};
ghost use Rattle.cells.specs.Cells.{Room};
ghost use Rattle.store.specs.Store.{usable, height_of};
ghost use Rattle.header.specs.Header.{Small};
ghost use Rattle.asking.specs.Asking as S;
ghost use Rattle.asking.specs.Asks.{InLayer};

use cells::held;
use header::{Header, REQUEST};
use numbers::Refused;
use octets::{put_hash, put_number};
use store::{blocks_of, facts_root, file_length, height_of, is_usable, piece_length_of};
use tree::geometry::{covering, has_layer, log2, node_number, piece_layer};

// kd_request, a struct of the C interface: a number; beside 0, `asks` is 1 with the request's four numbers and its 49 bytes, or 0: nothing to ask.
#[repr(C)]
#[derive(Clone, Copy)]
pub struct Request {
    pub number: u32,
    pub asks: u32,
    pub base: u32,
    pub index: u32,
    pub len: u32,
    pub proof: u32,
    pub message: [u8; 49],
}

// Of the `count` positions from number `node` on, how many stand before the first that isn't held.
fn held_front(store: &[u8], node: usize, count: usize) -> usize
    requires { Room (node + count) store.now }
    ensures { result ≡ S.held_front store.now node count }
{
    for i in 0..count {
        let there = held(store, node + i);
        if !there {
            return i;
        }
    }
    count
}

// How many layers above position `node` the first held one stands, at most `top`.
fn uncles_needed(store: &[u8], top: usize, node: usize) -> usize
    requires { Room (node + 1) store.now }
    ensures { result ≡ S.uncles_needed store.now top node }
{
    let mut x = node;
    for u in 0..top {
        let there = held(store, x);
        if there {
            return u;
        }
        x = x / 2;
    }
    top
}

// Whether a layer may be asked for.
fn layer_asked(store: &[u8], layer: usize) -> bool
    requires { usable store.now ≡ true }
    ensures { result ≡ S.layer_asked store.now layer }
{
    if layer == 0 {
        return true;
    }
    let plen = piece_length_of(store);
    let p = piece_layer(plen);
    if layer != p {
        return false;
    }
    let size = file_length(store);
    has_layer(size, plen)
}

// Why a layer is not asked for: 9, 3 or 6.
fn next_number(store: &[u8], layer: usize) -> Result<(), Refused>
    ensures { code_of result ≡ S.next_number store.now layer }
{
    if !is_usable(store) {
        return Err(Refused::Unusable);
    }
    if !layer_asked(store, layer) {
        return Err(Refused::RuleBroken);
    }
    if !held(store, 1) {
        return Err(Refused::NoAnchor);
    }
    Ok(())
}

// The length of a base run: the limit, or the whole layer.
fn run_length(height: usize, layer: usize) -> usize
    requires { (layer ≤ height) × (height ≤ tallest_tree) }
    ensures { result ≡ S.run_length height layer }
{
    let d = height - layer;
    let whole: usize = 1 << d;
    whole.min(limits::LONGEST_RUN)
}

// The fewest proof layers that give u uncles beside a run of 2^k hashes.
fn proof_for(k: usize, u: usize) -> usize
    requires { (k ≤ tallest_tree) × (u ≤ tallest_tree) }
    ensures { result ≡ S.proof_for k u }
{
    if u == 0 {
        return 0;
    }
    k + (u - 1)
}

// The header that asks for `run` of `layer`.
fn run_header(store: &[u8], height: usize, layer: usize, run: usize) -> Header
    requires { (usable store.now ≡ true) × (height ≡ height_of store.now) × InLayer height layer run }
    ensures { (result ≡ S.run_header store.now layer run) × Small result }
{
    let len = run_length(height, layer);
    let k = log2(len);
    let up = layer + k;
    let t = height - up;
    let top = node_number(height, up, run);
    let u = uncles_needed(store, t, top);
    let proof = proof_for(k, u);
    let index = run * len;
    Header {
        base: layer,
        index,
        len,
        proof,
    }
}

// A request's 49 bytes.
fn request_bytes(root: [u8; 32], header: Header) -> [u8; 49]
    ensures { result ≡ S.request_bytes root header }
{
    let base = header.base;
    let index = header.index;
    let len = header.len;
    let proof = header.proof;
    let mut m = [0u8; 49];
    m[0] = REQUEST;
    put_hash(&mut m, 1, root);
    put_number(&mut m, 33, 4, base);
    put_number(&mut m, 37, 4, index);
    put_number(&mut m, 41, 4, len);
    put_number(&mut m, 45, 4, proof);
    m
}

// The C interface's request that asks nothing: zeros beside the number.
fn no_request(number: u32) -> Request
    ensures { result ≡ S.no_request number }
{
    Request {
        number,
        asks: 0,
        base: 0,
        index: 0,
        len: 0,
        proof: 0,
        message: [0u8; 49],
    }
}

impl From<Result<Option<Request>, Refused>> for Request {
    ghost from_gives = { λ outcome request. request ≡ S.request_of outcome };

    fn from(outcome: Result<Option<Request>, Refused>) -> Request {
        match outcome {
            Ok(Some(request)) => request,
            Ok(None) => no_request(0),
            Err(why) => no_request(u32::from(why)),
        }
    }
}

// The request with a header.
fn request_for(root: [u8; 32], header: Header) -> Request
    requires { Small header }
    ensures { result ≡ S.request_for root header }
{
    let base = header.base as u32;
    let index = header.index as u32;
    let len = header.len as u32;
    let proof = header.proof as u32;
    let message = request_bytes(root, header);
    Request {
        number: 0,
        asks: 1,
        base,
        index,
        len,
        proof,
        message,
    }
}

// The request, or none where all that is wanted of the layer is held.
fn wanted_request(store: &[u8], layer: usize) -> Result<Option<Request>, Refused>
    ensures { S.request_of result ≡ S.next_answer store.now layer }
{
    next_number(store, layer)?;
    let h = height_of(store);
    let b = blocks_of(store);
    let c = covering(b, layer);
    let first = node_number(h, layer, 0);
    let i = held_front(store, first, c);
    if i >= c {
        return Ok(None);
    }
    let len = run_length(h, layer);
    let j = i / len;
    let x = run_header(store, h, layer, j);
    let root = facts_root(store);
    Ok(Some(request_for(root, x)))
}

// The next request for a layer: 9, 3, 6, or 0 with the request, or with nothing to ask.
pub fn next_request(store: &[u8], layer: usize) -> Request
    ensures { result ≡ S.next_answer store.now layer }
{
    Request::from(wanted_request(store, layer))
}
