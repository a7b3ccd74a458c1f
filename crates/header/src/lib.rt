// The 49 bytes before a message's hashes: read, held to the rules, and turned into a place in the tree.
#![tactic(auto)]

ghost use Rattle.std.specs.Prelude.{◌≡◌, eqb, ◌&&◌, ◌+◌, ◌≤◌, ◌<◌, length, true};
ghost use Rattle.header.specs.Header as Hd;

// The ids of the three messages. They are compared with one byte and written as one: an enum would only be turned into them and back.
pub const REQUEST: u8 = 21;

pub const HASHES: u8 = 22;

pub const REJECT: u8 = 23;

// The bytes before a message's hashes.
pub const HEADER_SIZE: usize = 49;

// The header's four numbers.
#[derive(Clone, Copy)]
pub struct Header {
    pub base: usize,
    pub index: usize,
    pub len: usize,
    pub proof: usize,
}

// The run is 2^k hashes below the position `top`, u uncles lead from there to the anchor.
#[derive(Clone, Copy)]
pub struct Place {
    pub k: usize,
    pub u: usize,
    pub top: usize,
}

pub fn header_of(message: &[u8]) -> Header
    requires { Hd.header_size ≤ length message.now }
    ensures { (result ≡ Hd.header_of message.now) × Hd.Small result }
{
    let base = octets::number_at(message, 33, 4);
    let index = octets::number_at(message, 37, 4);
    let len = octets::number_at(message, 41, 4);
    let proof = octets::number_at(message, 45, 4);
    Header {
        base,
        index,
        len,
        proof,
    }
}

#[tactic(auto, unfolding(crate::specs::Header::is_hashes))]
pub fn is_hashes(message: &[u8]) -> bool
    ensures { result ≡ Hd.is_hashes message.now }
{
    HEADER_SIZE <= message.len() && message[0] == HASHES
}

// Whether the message is its 49 bytes alone, under that id.
fn is_header(message: &[u8], id: u8) -> bool
    ensures { result ≡ (eqb (length message.now) Hd.header_size && eqb (Hd.message_id message.now) id) }
{
    message.len() == HEADER_SIZE && message[0] == id
}

#[tactic(auto, unfolding(crate::specs::Header::is_request))]
pub fn is_request(message: &[u8]) -> bool
    ensures { result ≡ Hd.is_request message.now }
{
    is_header(message, REQUEST)
}

#[tactic(auto, unfolding(crate::specs::Header::is_reject))]
pub fn is_reject(message: &[u8]) -> bool
    ensures { result ≡ Hd.is_reject message.now }
{
    is_header(message, REJECT)
}

fn length_rule(len: usize) -> bool
    ensures { result ≡ Hd.length_rule len }
{
    if len < 2 {
        return false;
    }
    if limits::LONGEST_RUN < len {
        return false;
    }
    let k = tree::geometry::log2(len);
    1 << k == len
}

// Whether the run ends within its layer, in a tree of `height`. Two numbers of 32 bits: their sum can't wrap.
fn index_rule(header: Header, height: usize) -> bool
    requires { Hd.Small header × (header.base ≤ height) × (height ≤ 32) }
    ensures { result ≡ Hd.index_rule header height }
{
    let base = header.base;
    let index = header.index;
    let len = header.len;
    let d = height - base;
    index + len <= 1 << d
}

// Whether a header keeps the rules, for a file of `height`.
pub fn keeps_rules(header: Header, height: usize) -> bool
    requires { Hd.Small header × (height ≤ 32) }
    ensures { result ≡ Hd.rules_kept header height }
{
    let Header {
        base,
        index,
        len,
        proof,
    } = header;
    if !length_rule(len) {
        return false;
    }
    if index % len != 0 {
        return false;
    }
    let k = tree::geometry::log2(len);
    if height < base + k {
        return false;
    }
    if height <= base + proof {
        return false;
    }
    index_rule(header, height)
}

// The place that a header names which keeps the rules.
pub fn place_of(header: Header, height: usize) -> Place
    requires { Hd.Small header × (height ≤ 32) × (Hd.rules_kept header height ≡ true) }
    ensures { result ≡ Hd.place_of header height }
{
    let Header {
        base,
        index,
        len,
        proof,
    } = header;
    let k = tree::geometry::log2(len);
    let u = (proof + 1).saturating_sub(k);
    let l = base + k;
    let i = index / len;
    let top = tree::geometry::node_number(height, l, i);
    Place { k, u, top }
}
