// What stands next in an open directory of the file tree. Each node shows in its first key what it is: a file's is empty, a
// directory's is not.
ghost use Rattle.std.specs.Prelude.{◌≡◌, drop};
ghost use Rattle.bencode.specs.Scalar.{read_string};
ghost use Rattle.filetree.specs.Token.{ends_here, past_file, file_token, first_key, node_token, token_at};

use crate::element::element_right;
use crate::file::read_file;
use bencode::part::Part;
use bencode::parts::is_dictionary;
use bencode::scalar::read_string;
use bencode::walk::value_end;
use limits::LEVELS;

// What stands next in an open directory: a directory inside, with its key; the directory's end; or a file, with its key.
#[derive(Clone, Copy)]
pub enum Token {
    Opened {
        start: usize,
        end: usize,
    },
    Closed,
    Leaf {
        start: usize,
        end: usize,
        length: usize,
        root: usize,
        next: usize,
    },
}

// Whether a dictionary ends at `at`.
pub fn ends_here(tree: &[u8], at: usize) -> bool
    ensures { result ≡ ends_here (drop at tree.now) }
{
    if tree.len() <= at {
        return false;
    }
    tree[at] == b'e'
}

// The file with key start..end, length and root, whose dictionary is at `at`: it is all that its node has.
fn past_file(
    tree: &[u8],
    start: usize,
    end: usize,
    length: usize,
    root: usize,
    at: usize,
) -> Option<Token>
    ensures { result ≡ past_file tree.now start end length root at }
{
    match value_end(tree, at, LEVELS) {
        Err(_) => None,
        Ok(k) => {
            if ends_here(tree, k) {
                return Some(Token::Leaf {
                    start,
                    end,
                    length,
                    root,
                    next: k + 1,
                });
            }
            None
        }
    }
}

// The file with key start..end, whose dictionary is at `at`.
fn file_token(tree: &[u8], start: usize, end: usize, at: usize) -> Option<Token>
    ensures { result ≡ file_token tree.now start end at }
{
    let file = read_file(tree, at)?;
    past_file(tree, start, end, file.length, file.root, at)
}

// The node with key start..end, by its first key at `at`.
fn first_key(tree: &[u8], start: usize, end: usize, at: usize) -> Option<Token>
    ensures { result ≡ first_key tree.now start end (read_string at (drop at tree.now)) }
{
    match read_string(tree, at) {
        None => None,
        Some(Part { start: a, end: b }) => {
            if a == b {
                return file_token(tree, start, end, b);
            }
            Some(Token::Opened { start, end })
        }
    }
}

// The node with key start..end: a dictionary, and not an empty one.
fn node_token(tree: &[u8], start: usize, end: usize) -> Option<Token>
    ensures { result ≡ node_token tree.now start end }
{
    if is_dictionary(tree, end) {
        let at = end + 1;
        if ends_here(tree, at) {
            return None; // an empty directory
        }
        return first_key(tree, start, end, at);
    }
    None
}

// The token at `at`, if one may stand there. Each key here is a path element.
pub fn read_token(tree: &[u8], at: usize) -> Option<Token>
    ensures { result ≡ token_at tree.now at }
{
    if ends_here(tree, at) {
        return Some(Token::Closed);
    }
    match read_string(tree, at) {
        None => None,
        Some(Part { start, end }) => {
            if element_right(tree, start, end - start) {
                return node_token(tree, start, end);
            }
            None // no path element
        }
    }
}
