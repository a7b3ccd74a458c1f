// Pieces as they are counted on the wire: file by file in tree order, by the records of a torrent's list. An empty file has none.
#![tactic(auto)]

ghost use Rattle.std.specs.Prelude.{◌≡◌, true, ◌+◌, ◌*◌, ◌≤◌, length};
ghost use Rattle.tree.specs.Geometry.{is_piece_length};
ghost use Rattle.catalogue.specs.Catalogue.{record_size};
ghost use Rattle.numbers.specs.Refusals.{answer_of, code_of};
ghost use Rattle.places.specs.Places as P;

use catalogue::RECORD;
use numbers::{Answer, Refused};
use octets::number_at;
use tree::geometry::{is_piece_length, piece_count};

// kd_placed: 0, the file's number and the piece's number in it; or a refusal beside zeros.
#[repr(C)]
#[derive(Clone, Copy)]
pub struct Placed {
    pub number: u32,
    pub file: u64,
    pub piece: u64,
}

// A file's number, and a piece's number in it.
#[derive(Clone, Copy)]
pub struct FilePiece {
    pub file: usize,
    pub piece: usize,
}

impl From<Result<FilePiece, Refused>> for Placed {
    ghost from_gives = { λ outcome placed. placed ≡ P.placed_of outcome };

    fn from(outcome: Result<FilePiece, Refused>) -> Placed {
        match outcome {
            Ok(place) => Placed {
                number: numbers::DONE,
                file: place.file as u64,
                piece: place.piece as u64,
            },
            Err(why) => Placed {
                number: u32::from(why),
                file: 0,
                piece: 0,
            },
        }
    }
}

// The length of file n.
fn length_of(list: &[u8], n: usize) -> usize
    requires { record_size * (n + 1) ≤ length list.now }
    ensures { result ≡ P.length_of list.now n }
{
    number_at(list, RECORD * n, 8)
}

// Whether the first `files` lengths are in range.
fn lengths_right(list: &[u8], files: usize) -> bool
    requires { record_size * files ≤ length list.now }
    ensures { result ≡ P.lengths_right list.now 0 files }
{
    for i in 0..files {
        let n = length_of(list, i);
        if limits::LONGEST_FILE < n {
            return false;
        }
    }
    true
}

// Whether the list is in its form: whole records, no more than a torrent has bytes, each with a length in range.
fn list_right(list: &[u8]) -> bool
    ensures { result ≡ P.list_right list.now }
{
    if list.len() % RECORD != 0 {
        return false;
    }
    let files = list.len() / RECORD;
    if limits::LARGEST_TORRENT < files {
        return false;
    }
    lengths_right(list, files)
}

// Whether the list and the piece length are in their form: else 4 or 24.
fn list_fits(list: &[u8], plen: usize) -> Result<(), Refused>
    ensures { code_of result ≡ P.list_number list.now plen }
{
    let right = list_right(list);
    if !right {
        return Err(Refused::WrongSize);
    }
    let range = is_piece_length(plen);
    if !range {
        return Err(Refused::PieceLengthOutOfRange);
    }
    Ok(())
}

// The pieces of the first `file` files.
fn pieces_before(list: &[u8], plen: usize, file: usize) -> usize
    requires { (P.list_right list.now ≡ true) × (is_piece_length plen ≡ true) × (file ≤ P.files_in list.now) }
    ensures { result ≡ P.pieces_before list.now plen file }
{
    let mut sum = 0;
    for i in 0..file {
        let n = length_of(list, i);
        let c = piece_count(n, plen);
        sum += c;
    }
    sum
}

fn first_of(list: &[u8], plen: usize, file: usize) -> Result<u64, Refused>
    ensures { answer_of result ≡ P.first_answer list.now plen file }
{
    list_fits(list, plen)?;
    if file >= list.len() / RECORD {
        return Err(Refused::NoSuchPart);
    }
    let n = pieces_before(list, plen, file);
    Ok(n as u64)
}

// The first piece of a file: 4, 24, 29, or 0 and its number on the wire.
pub fn first_piece(list: &[u8], plen: usize, file: usize) -> Answer
    ensures { result ≡ P.first_answer list.now plen file }
{
    Answer::from(first_of(list, plen, file))
}

// The file that has the piece, of all, and the piece in it; or 29.
fn find_place(list: &[u8], plen: usize, piece: usize, files: usize) -> Result<FilePiece, Refused>
    requires { record_size * files ≤ length list.now }
    ensures { P.placed_of result ≡ P.place_from list.now plen 0 files piece }
{
    let mut left = piece;
    for i in 0..files {
        let n = length_of(list, i);
        let c = piece_count(n, plen);
        if left < c {
            return Ok(FilePiece {
                file: i,
                piece: left,
            });
        }
        left -= c;
    }
    Err(Refused::NoSuchPart)
}

fn place_of(list: &[u8], plen: usize, piece: usize) -> Result<FilePiece, Refused>
    ensures { P.placed_of result ≡ P.place_answer list.now plen piece }
{
    list_fits(list, plen)?;
    find_place(list, plen, piece, list.len() / RECORD)
}

// Where a piece of the wire stands: 4, 24, 29, or 0, the file and the piece in it.
pub fn place(list: &[u8], plen: usize, piece: usize) -> Placed
    ensures { result ≡ P.place_answer list.now plen piece }
{
    Placed::from(place_of(list, plen, piece))
}
