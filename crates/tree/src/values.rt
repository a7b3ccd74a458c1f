// The values of a file's tree that need no others: padding, and a leaf.
ghost use Rattle.std.specs.Prelude.{◌≡◌};
ghost use Rattle.tree.specs.Values.{pad_value, leaf_of};

use crate::geometry::{block_count, block_size};
use sha256::{hash, pair};

// The value of every padding position of `layer`.
pub fn pad_value(layer: usize) -> [u8; 32]
    ensures { result ≡ pad_value layer }
{
    let mut v = [0u8; 32];
    for _i in 0..layer {
        let w = pair(v, v);
        v = w;
    }
    v
}

// Leaf `block` of the tree over `bytes`: the hash of its block, the last one at its own length.
pub fn leaf_of(bytes: &[u8], block: usize) -> [u8; 32]
    ensures { result ≡ leaf_of bytes.now block }
{
    let n = bytes.len();
    let b = block_count(n);
    if block >= b {
        return pad_value(0);
    }
    let s = block_size(n, block);
    let a = 16384 * block;
    let e = a + s;
    hash(&bytes[a..e])
}
