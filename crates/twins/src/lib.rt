// Files with one root. They may be in a torrent if they have one length, and share a layer then. The roots' positions are sorted, each
// root once; a walk over the files notes at each root's place where the last file with that root stands, and compares the next one's
// length with that file's. Each file is so read twice at most. Directories inside one another by recursion, with the levels left; nodes side by
// side by a loop.
#![tactic(auto)]

ghost use Rattle.std.specs.Prelude.{◌≡◌, true, cond, ◌&&◌, ◌++◌, ◌+◌, ◌^◌, ◌≤◌, ◌<◌, drop, replicate, eqb};
ghost use Rattle.std.proofs.Math.ListN as L;
ghost use Rattle.limits.specs.Limits.{largest_torrent};
ghost use Rattle.octets.specs.Octets.{cut};
ghost use Rattle.tree.specs.Geometry.{has_layer};
ghost use Rattle.sorting.specs.Sorting.{Stands};
ghost use Rattle.filetree.specs.Tree.{files_in, right, listed};
ghost use Rattle.filetree.specs.Reading.{read_files};
ghost use Rattle.twins.specs.Twins as W;
ghost use Rattle.twins.specs.Twins.{compared_of, size_noted, Rooted, Meets};
ghost use Rattle.twins.specs.Walk.{Ahead, Compares};

use filetree::count::ELEMENTS;
use filetree::token::{Token, read_token};
use sorting::halving::search;
use tree::geometry::has_layer;

// The position past a directory, and how many layers the files up to there have.
#[derive(Clone, Copy)]
pub struct Noted {
    pub next: usize,
    pub layered: usize,
}

// The length of the file that stands at p of the tree; 0 at 0, where none stands.
fn size_at(tree: &[u8], p: usize) -> usize
    ensures { result ≡ size_noted tree.now p }
{
    if p == 0 {
        return 0;
    }
    match read_token(tree, p) {
        None => 0,
        Some(Token::Closed) => 0,
        Some(Token::Opened { start: _, end: _ }) => 0,
        Some(
            Token::Leaf {
                start: _,
                end: _,
                length,
                root: _,
                next: _,
            },
        ) => length,
    }
}

// The length known of the root of a file, 0 if it is the first with this root or empty. The file, which stands at i, is noted.
fn meet(
    tree: &[u8],
    roots: &[u32],
    count: usize,
    room: &mut [u32],
    i: usize,
    length: usize,
    root: usize,
) -> usize
    requires { Rooted tree.now roots.now count × (count ≤ L.length room.old) × (i < 2 ^ 32) × ((length ≡ 0 → ⊥) → root + 32 ≤ L.length tree.now) × ((length ≡ 0 → ⊥) → Stands tree.now roots.now count (cut tree.now root 32)) }
    ensures { Meets tree.now roots.now count room.old room.new i length root result }
{
    if length == 0 {
        return 0;
    }
    let past = root + 32;
    let at = search(tree, roots, count, &tree[root..past]);
    if at < count {
        let p = room[at] as usize;
        let known = size_at(tree, p);
        room[at] = i as u32;
        return known;
    }
    0 // never: the root is there
}

// Whether a file has another length than the one known of its root.
fn differs(known: usize, length: usize) -> bool
    ensures { result ≡ W.differs known length }
{
    if known == 0 {
        return false;
    }
    known != length
}

// One layer more, if the file is longer than the piece length and its root was not known.
fn one_more(layered: usize, known: usize, length: usize, plen: usize) -> usize
    requires { layered < 2 ^ 32 }
    ensures { result ≡ cond (eqb known 0 && has_layer length plen) (layered + 1) layered }
{
    if known == 0 {
        if has_layer(length, plen) {
            return layered + 1;
        }
        return layered;
    }
    layered
}

// The files of a directory of a right tree, from its first entry on, with so many levels left below it: each directory inside takes one, and as
// the tree is right there is one. The files met before have `before` layers. None if two with one root differ in length.
fn compare_directory(
    tree: &[u8],
    at: usize,
    levels: usize,
    roots: &[u32],
    count: usize,
    room: &mut [u32],
    plen: usize,
    before: usize,
) -> Option<Noted>
    requires { Rooted tree.now roots.now count × (L.length tree.now ≤ largest_torrent) × Ahead tree.now roots.now count plen at levels room.old before }
    ensures { (w : Ahead tree.now roots.now count plen at levels room.old before) → Compares tree.now roots.now count plen (w.done ++ w.inside) w.end room.new result }
{
    let below = levels - 1;
    let mut i = at;
    let mut layered = before;
    while i < tree.len() {
        match read_token(tree, i)? {
            Token::Closed => {
                return Some(Noted {
                    next: i + 1,
                    layered,
                });
            }
            Token::Leaf {
                start: _,
                end: _,
                length,
                root,
                next,
            } => {
                let known = meet(tree, roots, count, room, i, length, root);
                if differs(known, length) {
                    return None;
                }
                layered = one_more(layered, known, length, plen);
                i = next;
            }
            Token::Opened { start: _, end } => {
                let inside = compare_directory(
                    tree,
                    end + 1,
                    below,
                    roots,
                    count,
                    room,
                    plen,
                    layered,
                )?;
                layered = inside.layered;
                i = inside.next;
            }
        }
    }
    None // never: the tree is right
}

// Nothing is noted in the first `count` places.
fn forget(room: &mut [u32], count: usize)
    requires { count ≤ L.length room.old }
    ensures { room.new ≡ replicate count 0 ++ drop count room.old }
{
    room[..count].fill(0);
}

// How many layers the files of the right `tree` have, one for each root of those longer than the piece length; none if two with one root
// differ in length. `roots` has the positions of their roots, each root once; `room` is work space.
pub fn compare(
    tree: &[u8],
    roots: &[u32],
    count: usize,
    room: &mut [u32],
    plen: usize,
) -> Option<usize>
    requires { Rooted tree.now roots.now count × (right (files_in tree.now) ≡ true) × (count ≤ L.length room.old) × (L.length tree.now ≤ largest_torrent) }
    ensures { result ≡ compared_of plen (read_files tree.now (listed (files_in tree.now))) }
{
    forget(room, count);
    let all = compare_directory(tree, 1, ELEMENTS, roots, count, room, plen, 0)?;
    Some(all.layered)
}
