// Positions of strings, each string once: sorted, those of one string stand side by side, and the first of them is kept.
ghost use Rattle.std.specs.Prelude.{◌≡◌, ℕ, ◌+◌, ◌-◌, ◌≤◌, ◌<◌, length, take, drop, get_or, set, ltb, cond, ◌++◌};
ghost use Rattle.sorting.specs.Sorting.{Fit, lower, sorted, thinned};

use crate::compare::{ByString, before, index};
use crate::sort::sort;

// Position i goes behind the `kept` ones, if its string stands behind the last of theirs; how many are kept then.
fn keep(bytes: &[u8], at: &mut [u32], kept: usize, i: usize) -> usize
    requires { Fit (length bytes.now) at.old × (0 < kept) × (kept ≤ i) × (i < length at.old) }
    ensures { (result ≡ cond (lower bytes.now (get_or at.old (kept - 1) 0) (get_or at.old i 0)) (kept + 1) kept) × (at.new ≡ cond (lower bytes.now (get_or at.old (kept - 1) 0) (get_or at.old i 0)) (set at.old kept (get_or at.old i 0)) at.old) }
{
    let p = index(at[kept - 1]);
    let q = index(at[i]);
    if before(bytes, p, q) {
        at[kept] = at[i];
        return kept + 1;
    }
    kept
}

// Keeps of sorted positions the first of each string, at the front; how many these are.
fn thin(bytes: &[u8], at: &mut [u32]) -> usize
    requires { Fit (length bytes.now) at.old }
    ensures { (result ≡ length (thinned bytes.now at.old)) × (at.new ≡ thinned bytes.now at.old ++ drop result at.old) }
{
    if at.len() == 0 {
        return 0;
    }
    let mut kept = 1;
    for i in 1..at.len() {
        kept = keep(bytes, at, kept, i);
    }
    kept
}

// Sorts the first `count` positions by their strings and keeps one for each string, at the front; how many these are.
pub fn once_each(bytes: &[u8], at: &mut [u32], room: &mut [u32], count: usize) -> usize
    requires { (count ≤ length at.old) × (count ≤ length room.old) × ((i : ℕ) → i < count → get_or at.old i 0 + 32 ≤ length bytes.now) }
    ensures { (result ≡ length (thinned bytes.now (sorted bytes.now (take count at.old)))) × (at.new ≡ (thinned bytes.now (sorted bytes.now (take count at.old)) ++ drop result (sorted bytes.now (take count at.old))) ++ drop count at.old) × (room.new ≡ cond (ltb count 2) room.old (sorted bytes.now (take count at.old) ++ drop count room.old)) }
{
    sort(&ByString { bytes }, &mut at[0..count], &mut room[0..count]);
    thin(bytes, &mut at[0..count])
}
