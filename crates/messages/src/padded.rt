// Number 5: whether the given hashes at padding positions have their layer's padding value.
ghost use Rattle.std.specs.Prelude.{◌≡◌, ◌+◌, ◌*◌, ◌^◌, ◌≤◌, ◌<◌, length};
ghost use Rattle.tree.specs.Values.{pad_value};
ghost use Rattle.messages.specs.Padded.{all_from, run_padded, uncle_padded, uncles_padded};

use octets::{hash_at, same};
use settling::sibling;
use sha256::pair;
use tree::geometry::covering;
use tree::values::pad_value;

// Whether the hashes from number `from` on, of the first n of `run`, are all v.
fn all_from(run: &[u8], v: [u8; 32], from: usize, n: usize) -> bool
    requires { 32 * n ≤ length run.now }
    ensures { result ≡ all_from run.now v from n }
{
    for i in from..n {
        let h = hash_at(run, 32 * i);
        let alike = same(h, v);
        if !alike {
            return false;
        }
    }
    true
}

// The base run, `len` hashes at the positions from `index` on of layer `base`.
pub fn run_padded(run: &[u8], blocks: usize, base: usize, index: usize, len: usize) -> bool
    requires { 32 * len ≤ length run.now }
    ensures { result ≡ run_padded run.now blocks base index len }
{
    let c = covering(blocks, base);
    let v = pad_value(base);
    if c <= index {
        return all_from(run, v, 0, len);
    }
    all_from(run, v, c - index, len)
}

// Uncle `number`, beside the path that is at `index` in `layer`. `pad` is `layer`'s padding value.
fn uncle_padded(
    hashes: &[u8],
    blocks: usize,
    number: usize,
    layer: usize,
    index: usize,
    pad: [u8; 32],
) -> bool
    requires { (32 * (number + 1) ≤ length hashes.now) × (index < 2 ^ 63) × (pad ≡ pad_value layer) }
    ensures { result ≡ uncle_padded hashes.now blocks number layer index }
{
    let c = covering(blocks, layer);
    let y = sibling(index);
    if y < c {
        return true;
    }
    same(hash_at(hashes, 32 * number), pad)
}

// The uncles from `number` on, `count` of them.
pub fn uncles_padded(
    hashes: &[u8],
    blocks: usize,
    number: usize,
    count: usize,
    layer: usize,
    index: usize,
    pad: [u8; 32],
) -> bool
    requires { (32 * (number + count) ≤ length hashes.now) × (layer + count < 2 ^ 63) × (index < 2 ^ 63) × (pad ≡ pad_value layer) }
    ensures { result ≡ uncles_padded hashes.now blocks number count layer index }
{
    if count == 0 {
        return true;
    }
    let d = count - 1;
    let i2 = number + 1;
    let l2 = layer + 1;
    let x2 = index / 2;
    let right = uncle_padded(hashes, blocks, number, layer, index, pad);
    if right {
        let v2 = pair(pad, pad);
        return uncles_padded(hashes, blocks, i2, d, l2, x2, v2);
    }
    false
}
