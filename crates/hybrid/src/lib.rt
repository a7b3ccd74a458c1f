// The v1 half of a hybrid torrent (BEP 3, BEP 47) held against the v2 half. `list` is the part of the torrent that `files` is, `tree` the part
// that `file tree` is.
#![tactic(auto)]

ghost use Rattle.std.specs.Prelude.{◌≡◌, true, cond, ◌||◌, List, ◌++◌, ℕ, ◌+◌, ◌-◌, ◌%◌, ◌^◌, ◌≤◌, ◌<◌, eqb};
ghost use Rattle.limits.specs.Limits.{largest_torrent};
ghost use Rattle.hybrid.specs.Tally.{Encodes, tallied_of};
ghost use Rattle.std.proofs.Math.ListN as L;
ghost use Rattle.octets.specs.Octets.{cut};
ghost use Rattle.bencode.specs.Grammar.{Value, Items, Entries, list, dictionary, encode_items};
ghost use Rattle.bencode.specs.Parts.{present, lookup};
ghost use Rattle.meaning.specs.Keys.{key_length};
ghost use Rattle.halves.specs.V1Keys.{key_attr, key_path};
ghost use Rattle.meaning.specs.Torrent.{without, File};
ghost use Rattle.halves.specs.V1Half.{letter_p, names_full, names_of, same_path};
ghost use Rattle.filetree.specs.Tree as Tree;
ghost use Rattle.filetree.specs.Tree.{max_elements, Element, Listed, files_in};
ghost use Rattle.filetree.specs.Path.{path_size};
ghost use Rattle.filetree.specs.Reading.{elements, read_files};
ghost use Rattle.hybrid.specs.Half.{several_of};
ghost use Rattle.hybrid.specs.Ahead.{Ahead, NextReads};
ghost use Rattle.hybrid.specs.Meet.{next_file, after_next};
ghost use Rattle.hybrid.specs.Compare.{MetIs, Compares};
ghost use Rattle.hybrid.specs.PathLaws.{Kept};
ghost use Rattle.hybrid.specs.Entry.{StandsAt, natural_in, attr_in, PathFoundIs, is_list, EntryReads, Reads, with_path};

use bencode::order::same;
use bencode::part::Part;
use bencode::parts::{find, is_dictionary};
use bencode::scalar::{Integer, read_integer, read_string};
use bencode::walk::value_end;
use filetree::count::ELEMENTS;
use filetree::path::{PATH, set_element};
use filetree::token::{Token, ends_here, read_token};
use limits::LEVELS;

// What `attr` says of an entry.
#[derive(Clone, Copy)]
pub enum Attr {
    Plain,
    Padding,
}

// An entry of `files`: its length, where its path stands (0 where it is left out) and the position behind it.
#[derive(Clone, Copy)]
pub struct EntryRead {
    pub padding: bool,
    pub length: usize,
    pub path: usize,
    pub next: usize,
}

// Why an entry is none: a key is missing or not of its type.
#[derive(Clone, Copy)]
pub struct Malformed;

// The integer at `at`, if it is not negative.
fn natural_at(bytes: &[u8], at: usize) -> Option<usize>
    ensures { (x : Value) → StandsAt bytes.now at x → result ≡ natural_in (present x) }
{
    match read_integer(bytes, at) {
        None => None,
        Some(
            Integer {
                minus,
                size,
                next: _,
            },
        ) => {
            if minus {
                return None;
            }
            Some(size)
        }
    }
}

// The `length` of the entry at `at`, if it has one that is not negative.
pub fn length_of(bytes: &[u8], at: usize) -> Option<usize>
    ensures { (es : Entries) → StandsAt bytes.now at (dictionary es) → result ≡ natural_in (lookup key_length es) }
{
    match find(bytes, at, b"length") {
        None => None,
        Some(Part { start, end: _ }) => natural_at(bytes, start),
    }
}

// Whether none of the bytes from start up to end is a `p`.
fn without_p(bytes: &[u8], start: usize, end: usize) -> bool
    requires { (start ≤ end) × (end ≤ L.length bytes.now) }
    ensures { result ≡ without letter_p (cut bytes.now start (end - start)) }
{
    for i in start..end {
        if bytes[i] == b'p' {
            return false;
        }
    }
    true
}

// What the string at `at` says, as an `attr`; none if no string stands there.
fn attr_at(bytes: &[u8], at: usize) -> Option<Attr>
    ensures { (x : Value) → StandsAt bytes.now at x → result ≡ attr_in (present x) }
{
    match read_string(bytes, at) {
        None => None,
        Some(Part { start, end }) => {
            if without_p(bytes, start, end) {
                return Some(Attr::Plain);
            }
            Some(Attr::Padding)
        }
    }
}

// The `attr` of the entry at `at`; none if it is no string.
fn attr_of(bytes: &[u8], at: usize) -> Option<Attr>
    ensures { (es : Entries) → StandsAt bytes.now at (dictionary es) → result ≡ attr_in (lookup key_attr es) }
{
    match find(bytes, at, b"attr") {
        None => Some(Attr::Plain),
        Some(Part { start, end: _ }) => attr_at(bytes, start),
    }
}

// Whether the items from `at` on are strings, none of them empty.
fn names_full(bytes: &[u8], at: usize) -> bool
    ensures { (vs : Items) (rest : List ℕ) → L.drop at bytes.now ≡ encode_items vs ++ rest → result ≡ names_full vs }
{
    let mut i = at;
    while i < bytes.len() {
        if ends_here(bytes, i) {
            return true;
        }
        match read_string(bytes, i) {
            None => {
                return false;
            }
            Some(Part { start, end }) => {
                if start == end {
                    return false;
                }
                i = end;
            }
        }
    }
    false
}

// Whether a list begins at `at`.
pub fn is_list(bytes: &[u8], at: usize) -> bool
    ensures { result ≡ is_list (L.drop at bytes.now) }
{
    if bytes.len() <= at {
        return false;
    }
    bytes[at] == b'l'
}

// Whether the value at `at` is a path: a list of strings, one or more, none of them empty.
fn path_at(bytes: &[u8], at: usize) -> Result<Option<usize>, Malformed>
    ensures { (x : Value) → StandsAt bytes.now at x → PathFoundIs bytes.now (present x) result }
{
    if bytes.len() <= at {
        return Err(Malformed);
    }
    if !is_list(bytes, at) {
        return Err(Malformed);
    }
    let first = at + 1;
    if ends_here(bytes, first) {
        return Err(Malformed);
    }
    if names_full(bytes, first) {
        return Ok(Some(at));
    }
    Err(Malformed)
}

// Where the `path` of the entry at `at` stands, if it has one.
fn path_of(bytes: &[u8], at: usize) -> Result<Option<usize>, Malformed>
    ensures { (es : Entries) → StandsAt bytes.now at (dictionary es) → PathFoundIs bytes.now (lookup key_path es) result }
{
    match find(bytes, at, b"path") {
        None => Ok(None),
        Some(Part { start, end: _ }) => path_at(bytes, start),
    }
}

// An entry with this path: padding may do without one.
fn with_path(
    found: Result<Option<usize>, Malformed>,
    padding: bool,
    length: usize,
    next: usize,
) -> Result<Option<EntryRead>, Malformed>
    ensures { result ≡ with_path found padding length next }
{
    match found? {
        Some(path) => Ok(Some(EntryRead {
            padding,
            length,
            path,
            next,
        })),
        None => {
            if padding {
                return Ok(Some(EntryRead {
                    padding,
                    length,
                    path: 0,
                    next,
                }));
            }
            Err(Malformed)
        }
    }
}

// The entry of the dictionary from `at` up to `next`.
fn entry_at(bytes: &[u8], at: usize, next: usize) -> Result<Option<EntryRead>, Malformed>
    ensures { EntryReads bytes.now at next result }
{
    let length = length_of(bytes, at).ok_or(Malformed)?;
    let attr = attr_of(bytes, at).ok_or(Malformed)?;
    match attr {
        Attr::Plain => with_path(path_of(bytes, at), false, length, next),
        Attr::Padding => with_path(path_of(bytes, at), true, length, next),
    }
}

// The entry that stands at `at` in the list that stands in `bytes`; none if the list ends there.
pub fn read_v1(bytes: &[u8], at: usize) -> Result<Option<EntryRead>, Malformed>
    ensures { Reads bytes.now at result }
{
    if ends_here(bytes, at) {
        return Ok(None);
    }
    if !is_dictionary(bytes, at) {
        return Err(Malformed);
    }
    match value_end(bytes, at, LEVELS) {
        Err(_) => Err(Malformed),
        Ok(next) => entry_at(bytes, at, next),
    }
}

// How many files a list has, and how many bytes all its entries, padding included.
#[derive(Clone, Copy)]
pub struct Tallied {
    pub files: usize,
    pub total: usize,
}

// More bytes than the v1 pieces of the largest torrent cover.
pub const MOST_BYTES: usize = 0x100_0000_0000;

// Whether an entry stands where it may: padding anywhere, a file on a piece boundary.
fn stands_right(padding: bool, at: usize, plen: usize) -> bool
    requires { 0 < plen }
    ensures { result ≡ (padding || eqb (at % plen) 0) }
{
    if padding {
        return true;
    }
    at % plen == 0
}

// One file more, unless it is padding.
fn counted(padding: bool, files: usize) -> usize
    requires { files < 2 ^ 32 }
    ensures { result ≡ cond padding files (files + 1) }
{
    if padding {
        return files;
    }
    files + 1
}

// The entries of `list`; none if something in it is malformed, a file does not begin at a multiple of the piece length, or there are more
// bytes than a torrent can have pieces for.
pub fn tally(list: &[u8], plen: usize) -> Option<Tallied>
    requires { (0 < plen) × (L.length list.now ≤ largest_torrent) }
    ensures { (vs : Items) → Encodes list.now vs → result ≡ tallied_of plen vs }
{
    let mut i = 1;
    let mut files = 0;
    let mut total = 0;
    while let Some(entry) = read_v1(list, i).ok()? {
        let padding = entry.padding;
        let length = entry.length;
        if !stands_right(padding, total, plen) {
            return None;
        }
        if length > MOST_BYTES - total {
            return None;
        }
        files = counted(padding, files);
        total += length;
        i = entry.next;
    }
    Some(Tallied { files, total })
}

// The next entry of `list` that is no padding, from `at` on; none if the list ends before one.
fn next_file(list: &[u8], at: usize) -> Result<Option<EntryRead>, Malformed>
    ensures { NextReads list.now at result }
{
    let mut i = at;
    while let Some(entry) = read_v1(list, i)? {
        let padding = entry.padding;
        if !padding {
            return Ok(Some(entry));
        }
        i = entry.next;
    }
    Ok(None)
}

// Whether the names of the list at `at` are the first `depth` elements of the path, which stand in `tree`.
fn same_path(tree: &[u8], path: &[usize], depth: usize, bytes: &[u8], at: usize) -> bool
    requires { (L.length path.now ≡ path_size) × (depth ≤ max_elements) }
    ensures { (ws : Items) → StandsAt bytes.now at (list ws) → names_full ws ≡ true → (p : List Element) → Kept (L.length tree.now) path.now depth p → result ≡ same_path (names_of ws) (elements tree.now p) }
{
    if bytes.len() <= at {
        return false;
    }
    let mut i = at + 1;
    for k in 0..depth {
        let x = path[2 * k];
        let y = path[2 * k + 1];
        if y < x {
            return false; // never: an element's end is not before its start
        }
        if tree.len() < y {
            return false; // never: it stands in `tree`
        }
        match read_string(bytes, i) {
            None => {
                return false;
            }
            Some(Part { start, end }) => {
                if !same(&bytes[start..end], &tree[x..y]) {
                    return false;
                }
                i = end;
            }
        }
    }
    ends_here(bytes, i)
}

// Where `list` goes on behind its next file, if that is the one with this path and length.
fn meet(
    tree: &[u8],
    path: &[usize],
    depth: usize,
    list: &[u8],
    cursor: usize,
    length: usize,
) -> Option<usize>
    requires { (L.length path.now ≡ path_size) × (depth ≤ max_elements) }
    ensures { (us : Items) → Ahead list.now cursor us → (p : List Element) → Kept (L.length tree.now) path.now depth p → (f : File) → f.size ≡ length → f.path ≡ elements tree.now p → MetIs list.now (after_next (next_file us) f) result }
{
    let left = next_file(list, cursor).ok()?;
    let file = left?;
    let n = file.length;
    let at = file.path;
    let next = file.next;
    if n != length {
        return None;
    }
    if same_path(tree, path, depth, list, at) {
        return Some(next);
    }
    None
}

// The position past a directory, and where the list goes on behind its files.
#[derive(Clone, Copy)]
pub struct Compared {
    pub next: usize,
    pub cursor: usize,
}

// The files of a directory, from its first entry on, with so many levels left below it, beside those of `list` from `cursor` on. `path` has the
// elements of the path to the directory. None if one of them is another than the list has.
fn compare_directory(
    tree: &[u8],
    at: usize,
    levels: usize,
    list: &[u8],
    cursor: usize,
    path: &mut [usize],
) -> Option<Compared>
    requires { (levels ≤ max_elements) × (L.length path.old ≡ path_size) }
    ensures { Compares tree.now list.now at levels cursor path.old path.new result }
{
    if levels == 0 {
        return None;
    }
    let below = levels - 1;
    let depth = ELEMENTS - levels;
    let mut behind = cursor;
    let mut i = at;
    while i < tree.len() {
        match read_token(tree, i)? {
            Token::Closed => {
                return Some(Compared {
                    next: i + 1,
                    cursor: behind,
                });
            }
            Token::Leaf {
                start,
                end,
                length,
                root: _,
                next,
            } => {
                set_element(path, depth, start, end);
                behind = meet(tree, path, depth + 1, list, behind, length)?;
                i = next;
            }
            Token::Opened { start, end } => {
                set_element(path, depth, start, end);
                let inside = compare_directory(tree, end + 1, below, list, behind, path)?;
                behind = inside.cursor;
                i = inside.next;
            }
        }
    }
    None
}

// How many bytes all entries of `list` have, beside `tree`, which has so many files; none if it does not fit the tree.
pub fn several(tree: &[u8], list: &[u8], plen: usize, files: usize) -> Option<usize>
    requires { (0 < plen) × (L.length list.now ≤ largest_torrent) }
    ensures { (vs : Items) → Encodes list.now vs → (fs : List Listed) (k : ℕ) → files_in tree.now ≡ Tree.files fs k → files ≡ L.length fs → result ≡ several_of plen vs (read_files tree.now fs) }
{
    let sums = tally(list, plen)?;
    let n = sums.files;
    let total = sums.total;
    if n != files {
        return None;
    }
    let mut path = [0usize; PATH];
    compare_directory(tree, 1, ELEMENTS, list, 1, &mut path)?;
    Some(total)
}
