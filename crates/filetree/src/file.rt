// A file by the value of its empty key: its length, and where its pieces root stands.
ghost use Rattle.std.specs.Prelude.{◌≡◌, drop};
ghost use Rattle.bencode.specs.Scalar.{read_integer, read_string};
ghost use Rattle.filetree.specs.File.{length_of, root_of, file_length, file_root, file_at};

use bencode::part::Part;
use bencode::parts::find;
use bencode::scalar::{Integer, read_integer, read_string};
use limits::LONGEST_FILE;

// The bytes of a pieces root.
pub const ROOT_SIZE: usize = 32;

// A file: its length, and the position of its root; 0 for an empty file, which has none.
#[derive(Clone, Copy)]
pub struct File {
    pub length: usize,
    pub root: usize,
}

// The length whose encoding begins at `at`.
fn length_here(tree: &[u8], at: usize) -> Option<usize>
    ensures { result ≡ length_of (read_integer at (drop at tree.now)) }
{
    match read_integer(tree, at) {
        None => None,
        Some(
            Integer {
                minus,
                size,
                next: _,
            },
        ) => {
            if minus {
                return None;
            }
            if size <= LONGEST_FILE {
                return Some(size);
            }
            None
        }
    }
}

// The root whose encoding begins at `at`.
fn root_here(tree: &[u8], at: usize) -> Option<usize>
    ensures { result ≡ root_of (read_string at (drop at tree.now)) }
{
    match read_string(tree, at) {
        None => None,
        Some(Part { start, end }) => {
            if end - start == ROOT_SIZE {
                Some(start)
            } else {
                None
            }
        }
    }
}

// The length in the dictionary at `at`.
fn read_length(tree: &[u8], at: usize) -> Option<usize>
    ensures { result ≡ file_length tree.now at }
{
    match find(tree, at, b"length") {
        None => None,
        Some(Part { start, end: _ }) => length_here(tree, start),
    }
}

// The root in the dictionary at `at`.
fn read_root(tree: &[u8], at: usize) -> Option<usize>
    ensures { result ≡ file_root tree.now at }
{
    match find(tree, at, b"pieces root") {
        None => None,
        Some(Part { start, end: _ }) => root_here(tree, start),
    }
}

// The file whose dictionary is at `at`. A file that is not empty has a root; an empty one has none, of any type.
pub fn read_file(tree: &[u8], at: usize) -> Option<File>
    ensures { result ≡ file_at tree.now at }
{
    let length = read_length(tree, at)?;
    if length == 0 {
        return match find(tree, at, b"pieces root") {
            None => Some(File { length: 0, root: 0 }),
            Some(Part { start: _, end: _ }) => None,
        };
    }
    let root = read_root(tree, at)?;
    Some(File { length, root })
}
