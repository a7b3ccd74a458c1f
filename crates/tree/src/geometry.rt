// What a file's length and its piece length fix: blocks, height, padding, pieces, node numbers.
ghost use Rattle.std.specs.Prelude.{◌≡◌, ◌-◌, ◌^◌, ◌≤◌, ◌<◌};
ghost use Rattle.tree.specs.Geometry as G;

// a / d, rounded up; 0 for d = 0. Goes through a - 1, so that no sum can wrap.
pub fn ceil_div(a: usize, d: usize) -> usize
    ensures { result ≡ G.ceil_div a d }
{
    if d == 0 {
        return 0;
    }
    if a == 0 {
        return 0;
    }
    (a - 1) / d + 1
}

// How many blocks of 16 KiB a file of `length` bytes has, the last one perhaps shorter.
pub fn block_count(length: usize) -> usize
    ensures { result ≡ G.block_count length }
{
    ceil_div(length, 16384)
}

// The least h with 2^h at least `blocks`.
pub fn height(blocks: usize) -> usize
    ensures { result ≡ G.height blocks }
{
    let mut rest = blocks;
    let mut h = 0;
    while rest > 1 {
        rest = rest / 2 + rest % 2;
        h += 1;
    }
    h
}

// The logarithm of a power of two.
pub fn log2(n: usize) -> usize
    ensures { result ≡ G.log2 n }
{
    height(n)
}

// How many positions of `layer` aren't padding, for a file of `blocks` blocks.
pub fn covering(blocks: usize, layer: usize) -> usize
    ensures { result ≡ G.covering blocks layer }
{
    if blocks == 0 {
        return 0;
    }
    if layer >= 64 {
        return 1;
    }
    ((blocks - 1) >> layer) + 1
}

// The piece layer's number.
pub fn piece_layer(plen: usize) -> usize
    ensures { result ≡ G.piece_layer plen }
{
    height(plen / 16384)
}

// Whether a piece length is a power of two from 16 KiB to 16 MiB.
pub fn is_piece_length(plen: usize) -> bool
    ensures { result ≡ G.is_piece_length plen }
{
    if plen > 16777216 {
        return false;
    }
    let p = piece_layer(plen);
    16384 << p == plen
}

// Whether a file of `length` bytes has a piece layer.
pub fn has_layer(length: usize, plen: usize) -> bool
    ensures { result ≡ G.has_layer length plen }
{
    plen < length
}

// How many pieces a file of `length` bytes has.
pub fn piece_count(length: usize, plen: usize) -> usize
    ensures { result ≡ G.piece_count length plen }
{
    ceil_div(length, plen)
}

// How many bytes `piece` has; none past the file.
pub fn piece_size(length: usize, plen: usize, piece: usize) -> usize
    ensures { result ≡ G.piece_size length plen piece }
{
    let c = piece_count(length, plen);
    if piece >= c {
        return 0;
    }
    let left = length - plen * piece;
    if left < plen { left } else { plen }
}

// How many bytes `block` has; none past the file.
pub fn block_size(length: usize, block: usize) -> usize
    ensures { result ≡ G.block_size length block }
{
    piece_size(length, 16384, block)
}

// The number of position `index` of `layer` in a tree of `height`.
pub fn node_number(height: usize, layer: usize, index: usize) -> usize
    requires { (layer ≤ height) × (height ≤ 63) × (index < 2 ^ (height - layer)) }
    ensures { result ≡ G.node_number height layer index }
{
    let d = height - layer;
    (1 << d) + index
}
