// A whole subtree of hashes over its leaves: eight parents at a time, and the last ones alone.
ghost use Rattle.std.specs.Prelude.{◌≡◌, ◌*◌, ◌≤◌, length};
ghost use Rattle.lanes.specs.Hashes.{Heap};

use crate::hashes::{pairs8, put8};
use octets::{hash_at, put_hash};

// Works out a whole subtree from its `leaves` leaves, which stand in `heap` from 32 `leaves` on: each hash from its two children, eight at
// a time while their children lie behind them, and the last ones alone.
pub fn fill_heap(heap: &mut [u8], leaves: usize)
    requires { (length heap.old ≡ 64 * leaves) × (1 ≤ leaves) }
    ensures { Heap 1 leaves heap.old heap.new }
{
    let mut q = leaves;
    // By `while`: q falls by eight while sixteen are left, and the next loop goes on from it.
    while 16 <= q {
        q -= 8;
        let from = 64 * q;
        let to = from + 512;
        let p = pairs8(&heap[from..to]);
        put8(&mut *heap, 32 * q, p);
    }
    for n in (1..q).rev() {
        let l = hash_at(&*heap, 64 * n);
        let r = hash_at(&*heap, 64 * n + 32);
        let h = sha256::pair(l, r);
        put_hash(&mut *heap, 32 * n, h);
    }
}
