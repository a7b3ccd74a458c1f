// One file of a right file tree, by its number; and its layer. `tree` is the part of the torrent that `file tree` is, `layers` the part
// that `piece layers` is.
ghost use Rattle.std.specs.Prelude.{◌≡◌, true, ◌+◌, ◌≤◌, ◌<◌};
ghost use Rattle.std.proofs.Math.ListN as L;
ghost use Rattle.octets.specs.Octets.{cut};
ghost use Rattle.filetree.specs.Tree.{max_elements, files_in, right, listed, file_number};
ghost use Rattle.filetree.specs.Path.{path_size};
ghost use Rattle.layers.specs.Layers.{layer_at, root_bytes, layer_string};
ghost use Rattle.torrent.specs.Find.{Finds, FoundFile};

use bencode::part::Part;
use bencode::parts::find;
use bencode::scalar::read_string;
use filetree::count::ELEMENTS;
use filetree::path::set_element;
use filetree::token::{Token, read_token};
use octets::hash_at;
use tree::geometry::has_layer;

// The file sought: its length, its root's position (0 if it is empty), and how many path elements it has.
#[derive(Clone, Copy)]
pub struct SoughtFile {
    pub length: usize,
    pub root: usize,
    pub elements: usize,
}

// The file; or the position past a directory, and how many files are still to pass; or something is wrong.
#[derive(Clone, Copy)]
pub enum Search {
    Here { place: SoughtFile },
    Past { next: usize, left: usize },
    WrongTree,
}

// File `file` of a directory, from its first entry on, with so many levels left below it. `path` has the elements of the path to the
// directory; where the file is found, those of its own path.
fn find_in(tree: &[u8], at: usize, levels: usize, file: usize, path: &mut [usize]) -> Search
    requires { (levels ≤ max_elements) × (L.length path.old ≡ path_size) }
    ensures { Finds tree.now at levels file path.old path.new result }
{
    if levels == 0 {
        return Search::WrongTree;
    }
    let below = levels - 1;
    let depth = ELEMENTS - levels;
    let mut left = file;
    let mut i = at;
    // A cursor: the next position comes from the bytes, so no index is counted.
    while i < tree.len() {
        match read_token(tree, i) {
            None => {
                return Search::WrongTree;
            }
            Some(Token::Closed) => {
                return Search::Past { next: i + 1, left };
            }
            Some(
                Token::Leaf {
                    start,
                    end,
                    length,
                    root,
                    next,
                },
            ) => {
                if left == 0 {
                    set_element(path, depth, start, end);
                    let place = SoughtFile {
                        length,
                        root,
                        elements: depth + 1,
                    };
                    return Search::Here { place };
                }
                left -= 1;
                i = next;
            }
            Some(Token::Opened { start, end }) => {
                set_element(path, depth, start, end);
                match find_in(tree, end + 1, below, left, path) {
                    Search::Here { place } => {
                        return Search::Here { place };
                    }
                    Search::Past { next, left: rest } => {
                        left = rest;
                        i = next;
                    }
                    Search::WrongTree => {
                        return Search::WrongTree;
                    }
                }
            }
        }
    }
    Search::WrongTree
}

fn no_place() -> SoughtFile
    ensures { result ≡ record { length = 0; root = 0; elements = 0 } }
{
    SoughtFile {
        length: 0,
        root: 0,
        elements: 0,
    }
}

// File `file` of `tree`, if it has one; its path is then in `path`.
pub fn find_file(tree: &[u8], file: usize, path: &mut [usize]) -> SoughtFile
    requires { (right (files_in tree.now) ≡ true) × (file < L.length (listed (files_in tree.now))) × (L.length path.old ≡ path_size) }
    ensures { FoundFile path.new (file_number (listed (files_in tree.now)) file) result }
{
    match find_in(tree, 1, ELEMENTS, file, path) {
        Search::Here { place } => place,
        Search::Past { next: _, left: _ } => no_place(), // never: the tree has `file`
        Search::WrongTree => no_place(), // never: the tree is right
    }
}

// The root of a file of `length` bytes: 32 zero bytes if it is empty.
pub fn root_of(tree: &[u8], length: usize, root: usize) -> [u8; 32]
    requires { (length ≡ 0 → ⊥) → root + 32 ≤ L.length tree.now }
    ensures { result ≡ root_bytes tree.now length root }
{
    if length == 0 {
        return [0u8; 32];
    }
    hash_at(tree, root)
}

// The string that the dictionary `layers` has for a root.
fn layer_at(layers: &[u8], root: &[u8]) -> Option<Part>
    ensures { result ≡ layer_at layers.now root.now }
{
    let found = find(layers, 0, root)?;
    read_string(layers, found.start)
}

// The layer of a file of `length` bytes with its root at `root`; none if it is not longer than the piece length.
pub fn layer_of(tree: &[u8], layers: &[u8], plen: usize, length: usize, root: usize) -> Option<Part>
    requires { (length ≡ 0 → ⊥) → root + 32 ≤ L.length tree.now }
    ensures { result ≡ layer_string layers.now plen length (cut tree.now root 32) }
{
    if has_layer(length, plen) {
        return layer_at(layers, &tree[root..root + 32]);
    }
    None
}
