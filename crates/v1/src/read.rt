// What is answered of the v1 half of a torrent: whether it has one, the v1 info hash, and the v1 hashes of a file's pieces.
ghost use Rattle.std.specs.Prelude.{◌≡◌, true, List, ℕ, ◌+◌, ◌*◌, ◌≤◌, ◌<◌};
ghost use Rattle.std.proofs.Math.ListN as L;
ghost use Rattle.limits.specs.Limits.{largest_torrent};
ghost use Rattle.octets.specs.Octets.{cut};
ghost use Rattle.tree.specs.Geometry.{piece_count};
ghost use Rattle.bencode.specs.Grammar.{Items, Entries, dictionary};
ghost use Rattle.halves.specs.V1Half.{entries_in, on_boundary, total};
ghost use Rattle.halves.specs.Stream.{file_start, zeros_behind};
ghost use Rattle.hybrid.specs.Entry.{StandsAt};
ghost use Rattle.v1.specs.V1.{pieces_from, as_hybrid, hybrid_of, as_piece, piece_of, v1_piece_of, found_part, as_part, part_of, v1_pieces_of, file_of};
ghost use Rattle.v1.specs.Place.{file_size, Fitting};
ghost use Rattle.v1.specs.Asked.{Fits, Stands, Answers};

use crate::place::file_at;
use bencode::part::Part;
use bencode::parts::find;
use bencode::scalar::read_string;
use hybrid::{Tallied, length_of, tally};
use numbers::Refused;
use octets::hash_at;
use torrent::check::check;
use tree::geometry::piece_count;

// The v1 hash of a piece, and how many zeros behind the piece it covers.
#[derive(Clone, Copy)]
pub struct V1Piece {
    pub hash: [u8; 20],
    pub zeros: usize,
}

// The part of the torrent that the v1 hashes of a file's pieces are, and how many zeros the last of them covers.
#[derive(Clone, Copy)]
pub struct V1Part {
    pub start: usize,
    pub size: usize,
    pub zeros: usize,
}

// A file in the v1 half: where it begins among the bytes of all entries, its length, and how many bytes these are.
#[derive(Clone, Copy)]
pub struct V1File {
    pub start: usize,
    pub length: usize,
    pub total: usize,
}

// A file of a hybrid: where the content of `pieces` begins in the torrent, the piece length, and the file in the v1 half.
#[derive(Clone, Copy)]
pub struct Sought {
    pub base: usize,
    pub plen: usize,
    pub file: V1File,
}

// The string that the dictionary at `at` has for `pieces`.
fn pieces_from(torrent: &[u8], at: usize) -> Option<Part>
    ensures { result ≡ pieces_from torrent.now at }
{
    let found = find(torrent, at, b"pieces")?;
    read_string(torrent, found.start)
}

// Where the torrent is hybrid, its v1 info hash: SHA-1 of the part that `info` is; or 19 to 28 or 31.
pub fn read_hybrid(torrent: &[u8]) -> Result<Option<[u8; 20]>, Refused>
    ensures { as_hybrid result ≡ hybrid_of torrent.now }
{
    // An arm of its own in place of `?`: a must-fail edit plants another answer there.
    let checked = match check(torrent) {
        Ok(checked) => checked,
        Err(why) => return Err(why),
    };
    let info = checked.keys.info.start;
    let past = checked.keys.info.end;
    match pieces_from(torrent, info) {
        None => Ok(None),
        Some(Part { start: _, end: _ }) => Ok(Some(sha_1::hash(&torrent[info..past]))),
    }
}

fn no_v1_file() -> V1File
    ensures { result ≡ record { start = 0; length = 0; total = 0 } }
{
    V1File {
        start: 0,
        length: 0,
        total: 0,
    }
}

// File `file` of `list` that `files` is.
fn among(list: &[u8], plen: usize, file: usize) -> V1File
    requires { (0 < plen) × (L.length list.now ≤ largest_torrent) }
    ensures { (vs : Items) → Fitting list.now vs → on_boundary plen 0 (entries_in vs) ≡ true → result ≡ record { start = file_start (entries_in vs) file; length = file_size (entries_in vs) file; total = total (entries_in vs) } }
{
    match tally(list, plen) {
        None => no_v1_file(), // never: the list fits
        Some(Tallied { files: _, total }) => {
            let f = file_at(list, file);
            V1File {
                start: f.start,
                length: f.length,
                total,
            }
        }
    }
}

// File `file` of the v1 half whose `info` stands at `at`.
fn v1_file(torrent: &[u8], at: usize, plen: usize, file: usize) -> V1File
    requires { (0 < plen) × (L.length torrent.now ≤ largest_torrent) }
    ensures { (info : Entries) → StandsAt torrent.now at (dictionary info) → Fits plen info file → result ≡ file_of info file }
{
    match find(torrent, at, b"files") {
        None => match length_of(torrent, at) {
            None => no_v1_file(), // never: a half without `files` has a length
            Some(length) => V1File {
                start: 0,
                length,
                total: length,
            },
        },
        Some(list) => among(&torrent[list.start..list.end], plen, file),
    }
}

// How many zeros the v1 hash of the piece at `at` covers, of which `left` bytes are the file's.
fn zeros_behind(plen: usize, all: usize, at: usize, left: usize) -> usize
    requires { at + left ≤ all }
    ensures { result ≡ zeros_behind plen all at left }
{
    let whole = plen.min(all - at);
    let own = plen.min(left);
    whole - own
}

// Piece `piece` of a file; or 3 if it has none.
fn piece_of(torrent: &[u8], sought: Sought, piece: usize) -> Result<V1Piece, Refused>
    requires { Stands (L.length torrent.now) sought.base sought.plen sought.file.start sought.file.length sought.file.total }
    ensures { (pieces : List ℕ) → cut torrent.now sought.base (L.length pieces) ≡ pieces → 20 * piece_count sought.file.total sought.plen ≤ L.length pieces → as_piece result ≡ piece_of pieces sought.plen sought.file piece }
{
    let plen = sought.plen;
    let start = sought.file.start;
    let length = sought.file.length;
    let count = piece_count(length, plen);
    if piece >= count {
        return Err(Refused::RuleBroken);
    }
    let at = piece * plen;
    let first = start / plen;
    let hash: [u8; 20] = hash_at(torrent, sought.base + 20 * (first + piece));
    let zeros = zeros_behind(plen, sought.file.total, start + at, length - at);
    Ok(V1Piece { hash, zeros })
}

// The hashes of all pieces of a file; none if it is empty.
fn part_of(sought: Sought) -> V1Part
    requires { (size : ℕ) × Stands size sought.base sought.plen sought.file.start sought.file.length sought.file.total }
    ensures { found_part result ≡ part_of sought.base sought.plen sought.file }
{
    let plen = sought.plen;
    let start = sought.file.start;
    let length = sought.file.length;
    if length == 0 {
        return V1Part {
            start: 0,
            size: 0,
            zeros: 0,
        };
    }
    let count = piece_count(length, plen);
    let last = (count - 1) * plen;
    let first = start / plen;
    let zeros = zeros_behind(plen, sought.file.total, start + last, length - last);
    V1Part {
        start: sought.base + 20 * first,
        size: 20 * count,
        zeros,
    }
}

// File `file` of a hybrid; or 19 to 29, 31, or 3 where the torrent is none.
fn seek(torrent: &[u8], file: usize) -> Result<Sought, Refused>
    ensures { Answers torrent.now file result }
{
    let c = check(torrent)?;
    let info = c.keys.info.start;
    let plen = c.keys.plen;
    if file >= c.files {
        return Err(Refused::NoSuchPart);
    }
    match pieces_from(torrent, info) {
        None => Err(Refused::RuleBroken),
        Some(Part { start, end: _ }) => Ok(Sought {
            base: start,
            plen,
            file: v1_file(torrent, info, plen, file),
        }),
    }
}

// The v1 hash of `piece` of `file`, and how many zeros behind the piece it covers; or 19 to 29, 31 or 3.
pub fn v1_piece(torrent: &[u8], file: usize, piece: usize) -> Result<V1Piece, Refused>
    ensures { as_piece result ≡ v1_piece_of torrent.now file piece }
{
    let sought = seek(torrent, file)?;
    piece_of(torrent, sought, piece)
}

// The part of the torrent that the v1 hashes of the pieces of `file` are; or 19 to 29, 31 or 3.
pub fn v1_pieces(torrent: &[u8], file: usize) -> Result<V1Part, Refused>
    ensures { as_part result ≡ v1_pieces_of torrent.now file }
{
    let sought = seek(torrent, file)?;
    Ok(part_of(sought))
}
