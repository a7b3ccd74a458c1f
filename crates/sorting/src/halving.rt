// A string found among strings that ascend.
ghost use Rattle.std.specs.Prelude.{ℕ, ◌+◌, ◌≤◌, ◌<◌, length, get_or};
ghost use Rattle.sorting.specs.Sorting.{Ascending, SearchedFor};

use crate::compare::{follows_key, index, precedes_key};

// Where the string `key` stands among the first `count`, or `count` where it is none of them.
pub fn search(bytes: &[u8], at: &[u32], count: usize, key: &[u8]) -> usize
    requires { (count ≤ length at.now) × ((i : ℕ) → i < count → get_or at.now i 0 + 32 ≤ length bytes.now) × Ascending bytes.now at.now count }
    ensures { SearchedFor bytes.now at.now count key.now result }
{
    let mut low = 0;
    let mut high = count;
    // A `while`: what is left is halved.
    while low < high {
        let middle = low + (high - low) / 2;
        let p = index(at[middle]);
        if precedes_key(bytes, p, key) {
            low = middle + 1;
        } else if follows_key(bytes, p, key) {
            high = middle;
        } else {
            return middle;
        }
    }
    count
}
