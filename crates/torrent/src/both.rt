// Whether the halves of a hybrid fit. `bytes` are the part of the torrent that `info` is, `tree` the part that `file tree` is.
ghost use Rattle.std.specs.Prelude.{◌≡◌, true, false, cond, None, List, [], ◌∷◌, ℕ, ◌-◌, ◌≤◌, ◌<◌};
ghost use Rattle.std.proofs.Math.ListN as L;
ghost use Rattle.octets.specs.Octets as Octets;
ghost use Rattle.octets.specs.Octets.{cut};
ghost use Rattle.limits.specs.Limits.{largest_torrent};
ghost use Rattle.tree.specs.Geometry.{is_piece_length};
ghost use Rattle.bencode.specs.Grammar.{Entries, dictionary};
ghost use Rattle.bencode.specs.Parts.{find_key, lookup};
ghost use Rattle.bencode.specs.Scalar.{part};
ghost use Rattle.meaning.specs.Keys.{key_length};
ghost use Rattle.filetree.specs.Tree.{files_in, right, listed};
ghost use Rattle.filetree.specs.Reading.{read_files};
ghost use Rattle.halves.specs.V1Keys.{key_files, key_name};
ghost use Rattle.halves.specs.V1Half.{is_there, string_or_none, one_file, half_fits, v1_entries};
ghost use Rattle.hybrid.specs.Entry.{StandsAt};
ghost use Rattle.hybrid.specs.Half.{half_of};
ghost use Rattle.torrent.specs.HalvesFit.{or_else, KeysFound, StringRead, fit_beside};

use crate::one::find_file;
use bencode::order::same;
use bencode::part::Part;
use bencode::parts::{Entry, is_dictionary, read_entry};
use bencode::scalar::read_string;
use filetree::path::PATH;
use hybrid::{is_list, length_of, several};
use limits::LARGEST_TORRENT;
use tree::geometry::piece_count;

// Where the keys of a v1 half stand in `info`.
#[derive(Clone, Copy)]
pub struct HalfKeys {
    pub files: Option<Part>,
    pub length: Option<Part>,
    pub name: Option<Part>,
    pub pieces: Option<Part>,
}

// What is found for a key up to the end of an entry: what was found before it, or else its value, where the entry has that key. Its key's content is start..value, and its
// value's part value..end.
fn found_by(
    bytes: &[u8],
    start: usize,
    value: usize,
    end: usize,
    key: &[u8],
    before: Option<Part>,
) -> Option<Part>
    requires { (start ≤ value) × (value ≤ L.length bytes.now) }
    ensures { result ≡ or_else before (cond (Octets.same key.now (cut bytes.now start (value - start))) (part value end) None) }
{
    match before {
        Some(found) => Some(found),
        None => {
            if same(key, &bytes[start..value]) {
                return Some(Part { start: value, end });
            }
            None
        }
    }
}

// Each of them is what `find` gives for it, all in one walk.
fn half_keys(bytes: &[u8]) -> HalfKeys
    ensures { KeysFound bytes.now result }
{
    let mut files = None;
    let mut length = None;
    let mut name = None;
    let mut pieces = None;
    if !is_dictionary(bytes, 0) {
        return HalfKeys {
            files,
            length,
            name,
            pieces,
        };
    }
    let mut at = 1; // the next position comes from the bytes
    while let Some(Entry { start, value, end }) = read_entry(bytes, at) {
        files = found_by(bytes, start, value, end, b"files", files);
        length = found_by(bytes, start, value, end, b"length", length);
        name = found_by(bytes, start, value, end, b"name", name);
        pieces = found_by(bytes, start, value, end, b"pieces", pieces);
        at = end;
    }
    HalfKeys {
        files,
        length,
        name,
        pieces,
    }
}

// Whether `info` has a key that was looked for.
fn is_there(found: Option<Part>) -> bool
    ensures { (i key : List ℕ) → found ≡ find_key key 0 i → (info : Entries) → StandsAt i 0 (dictionary info) → result ≡ is_there (lookup key info) }
{
    found.is_some()
}

// What `info` has for a key: nothing, a string's content, or a value that is no string.
#[derive(Clone, Copy)]
pub enum KeyString {
    NoKey,
    Text { start: usize, end: usize },
    OtherType,
}

fn string_of(bytes: &[u8], found: Option<Part>) -> KeyString
    ensures { (key : List ℕ) → found ≡ find_key key 0 bytes.now → StringRead bytes.now key result }
{
    match found {
        None => KeyString::NoKey,
        Some(Part { start: at, end: _ }) => match read_string(bytes, at) {
            None => KeyString::OtherType,
            Some(Part { start, end }) => KeyString::Text { start, end },
        },
    }
}

// Whether `name` is a string, or missing.
fn name_fits(bytes: &[u8], name: Option<Part>) -> bool
    requires { name ≡ find_key key_name 0 bytes.now }
    ensures { (info : Entries) → StandsAt bytes.now 0 (dictionary info) → result ≡ string_or_none (lookup key_name info) }
{
    match string_of(bytes, name) {
        KeyString::OtherType => false,
        KeyString::NoKey => true,
        KeyString::Text { start: _, end: _ } => true,
    }
}

// The one file of `tree` beside a v1 half of one file, with this name and n bytes.
fn alone(tree: &[u8], name: &[u8], n: usize) -> Option<usize>
    requires { (right (files_in tree.now) ≡ true) × (L.length (listed (files_in tree.now)) ≡ 1) }
    ensures { (plen : ℕ) → 0 < plen → result ≡ half_of plen true (one_file n name.now ∷ []) (read_files tree.now (listed (files_in tree.now))) }
{
    let mut path = [0usize; PATH];
    let f = find_file(tree, 0, &mut path);
    let elements = f.elements;
    let length = f.length;
    if elements != 1 {
        return None;
    }
    if length != n {
        return None;
    }
    let x = path[0];
    let y = path[1];
    if same(name, &tree[x..y]) {
        return Some(n);
    }
    None
}

// A v1 half without `files`: one file, with `length` and `name`.
fn single(bytes: &[u8], tree: &[u8], files: usize, name: Option<Part>) -> Option<usize>
    requires { (right (files_in tree.now) ≡ true) × (files ≡ L.length (listed (files_in tree.now))) × (name ≡ find_key key_name 0 bytes.now) }
    ensures { (info : Entries) → StandsAt bytes.now 0 (dictionary info) → is_there (lookup key_files info) ≡ false → (plen : ℕ) → 0 < plen → result ≡ half_of plen (half_fits info) (v1_entries info) (read_files tree.now (listed (files_in tree.now))) }
{
    match length_of(bytes, 0) {
        None => None,
        Some(n) => match string_of(bytes, name) {
            KeyString::NoKey => None,
            KeyString::OtherType => None,
            KeyString::Text { start, end } => {
                if files != 1 {
                    return None;
                }
                alone(tree, &bytes[start..end], n)
            }
        },
    }
}

// The v1 half beside the files of `tree`.
fn half(
    bytes: &[u8],
    tree: &[u8],
    plen: usize,
    files: usize,
    list: Option<Part>,
    length: Option<Part>,
    name: Option<Part>,
) -> Option<usize>
    requires { (0 < plen) × (L.length bytes.now ≤ largest_torrent) × (right (files_in tree.now) ≡ true) × (files ≡ L.length (listed (files_in tree.now))) × (list ≡ find_key key_files 0 bytes.now) × (length ≡ find_key key_length 0 bytes.now) × (name ≡ find_key key_name 0 bytes.now) }
    ensures { (info : Entries) → StandsAt bytes.now 0 (dictionary info) → result ≡ half_of plen (half_fits info) (v1_entries info) (read_files tree.now (listed (files_in tree.now))) }
{
    match list {
        None => single(bytes, tree, files, name),
        Some(Part { start, end }) => {
            if is_there(length) {
                return None;
            }
            if !name_fits(bytes, name) {
                return None;
            }
            if !is_list(bytes, start) {
                return None;
            }
            several(tree, &bytes[start..end], plen, files)
        }
    }
}

// Whether the torrent is no hybrid, or one whose halves fit.
pub fn halves_fit(bytes: &[u8], tree: &[u8], plen: usize, files: usize) -> bool
    requires { (is_piece_length plen ≡ true) × (L.length bytes.now ≤ largest_torrent) × (right (files_in tree.now) ≡ true) × (files ≡ L.length (listed (files_in tree.now))) }
    ensures { (info : Entries) → StandsAt bytes.now 0 (dictionary info) → result ≡ fit_beside plen (read_files tree.now (listed (files_in tree.now))) info }
{
    let keys = half_keys(bytes);
    let list = keys.files;
    let length = keys.length;
    let name = keys.name;
    let pieces = keys.pieces;
    match string_of(bytes, pieces) {
        KeyString::NoKey => true,
        KeyString::OtherType => false,
        KeyString::Text { start, end } => match half(bytes, tree, plen, files, list, length, name) {
            None => false,
            Some(n) => {
                let count = piece_count(n, plen);
                if count > LARGEST_TORRENT {
                    return false;
                }
                end - start == 20 * count
            }
        },
    }
}
