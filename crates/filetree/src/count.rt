// All files of the file tree counted, and where their roots stand: directories inside one another by recursion, with the levels left;
// nodes side by side by a loop.
ghost use Rattle.std.specs.Prelude.{◌≡◌, true, cond, ◌+◌, ◌^◌, ◌≤◌, ◌<◌, set, eqb};
ghost use Rattle.std.proofs.Math.ListN as L;
ghost use Rattle.limits.specs.Limits.{largest_torrent};
ghost use Rattle.octets.specs.Octets.{pasted};
ghost use Rattle.filetree.specs.Tree.{files_in, right, listed, roots_of};
ghost use Rattle.filetree.specs.Count.{most_roots, tally_with, no_tally, counted_of, Within, Counts};

use crate::token::{Token, ends_here, read_token};
use limits::{LARGEST_TORRENT, LEVELS};

// A path has at most so many elements: with the file's dictionary, `file tree`, `info` and the torrent that makes LEVELS.
pub const ELEMENTS: usize = LEVELS - 4;

// A file that is not empty takes 64 bytes or more: the largest torrent has no more of them.
pub const MOST_ROOTS: usize = LARGEST_TORRENT / 64;

// How many files there are, and how many of them are not empty.
#[derive(Clone, Copy)]
pub struct Tally {
    pub files: usize,
    pub roots: usize,
}

// The position past a directory and what is counted then.
#[derive(Clone, Copy)]
pub struct Counted {
    pub next: usize,
    pub tally: Tally,
}

// The root's position goes behind the `full` that are there, if the file is not empty; how many there are then.
fn keep_root(roots: &mut [u32], full: usize, length: usize, root: usize) -> usize
    requires { (full < L.length roots.old) × ((length ≡ 0 → ⊥) → root < 2 ^ 32) }
    ensures { (result ≡ cond (eqb length 0) full (full + 1)) × (roots.new ≡ cond (eqb length 0) roots.old (set roots.old full root)) }
{
    if length == 0 {
        return full;
    }
    roots[full] = root as u32;
    full + 1
}

// The tally with one file more; its root's position goes behind the others in `roots`.
fn count_file(tally: Tally, length: usize, root: usize, roots: &mut [u32]) -> Tally
    requires { Within largest_torrent tally × (tally.roots < L.length roots.old) × ((length ≡ 0 → ⊥) → root < 2 ^ 32) }
    ensures { (result ≡ tally_with length tally) × (roots.new ≡ cond (eqb length 0) roots.old (set roots.old tally.roots root)) }
{
    let full = keep_root(roots, tally.roots, length, root);
    Tally {
        files: tally.files + 1,
        roots: full,
    }
}

// The files of a directory, from its first entry on, with so many levels left below it: each directory inside takes one. None if something
// in it is wrong.
fn count_directory(
    tree: &[u8],
    at: usize,
    levels: usize,
    before: Tally,
    roots: &mut [u32],
) -> Option<Counted>
    requires { (L.length tree.now ≤ largest_torrent) × (L.length roots.old ≡ most_roots) × Within at before }
    ensures { Counts tree.now at levels before roots.old roots.new result }
{
    if levels == 0 {
        return None;
    }
    let below = levels - 1;
    let mut i = at;
    let mut tally = before;
    while i < tree.len() {
        match read_token(tree, i)? {
            Token::Closed => {
                return Some(Counted { next: i + 1, tally });
            }
            Token::Leaf {
                start: _,
                end: _,
                length,
                root,
                next,
            } => {
                tally = count_file(tally, length, root, roots);
                i = next;
            }
            Token::Opened { start: _, end } => {
                let inside = count_directory(tree, end + 1, below, tally, roots)?;
                tally = inside.tally;
                i = inside.next;
            }
        }
    }
    None
}

// The files of `file tree`, whose part `tree` is; none if it is wrong. If it is right, the positions of the roots of those that are not empty are then at
// the start of `roots`, in order.
pub fn count_files(tree: &[u8], roots: &mut [u32]) -> Option<Counted>
    requires { (L.length tree.now ≤ largest_torrent) × (L.length roots.old ≡ most_roots) }
    ensures { (result ≡ counted_of no_tally (files_in tree.now)) × (right (files_in tree.now) ≡ true → roots.new ≡ pasted roots.old 0 (roots_of (listed (files_in tree.now)))) }
{
    if ends_here(tree, 1) {
        return None; // an empty one
    }
    let none = Tally { files: 0, roots: 0 };
    count_directory(tree, 1, ELEMENTS, none, roots)
}
