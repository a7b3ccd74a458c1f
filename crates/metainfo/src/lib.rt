// A torrent's keys (BEP 52), and the numbers 19 to 24: too large, not strict, a key missing, another version, another piece length.
#![tactic(auto)]

ghost use Rattle.std.specs.Prelude.{◌≡◌, drop};
ghost use Rattle.bencode.specs.Parts.{find_key};
ghost use Rattle.metainfo.specs.Metainfo.{dictionary_in, integer_in, found_keys, as_keys, right_keys, info_keys, dictionary_keys, keys_of, metainfo_of};

use bencode::part::Part;
use bencode::parts::{find, is_dictionary};
use bencode::scalar::{Integer, read_integer};
use bencode::walk::strict;
use limits::LARGEST_TORRENT;
use numbers::Refused;
use tree::geometry::is_piece_length;

// The version of BEP 52.
pub const VERSION: usize = 2;

// The piece length, and the parts that the values of `info`, its `file tree` and `piece layers` are.
#[derive(Clone, Copy)]
pub struct Keys {
    pub plen: usize,
    pub info: Part,
    pub tree: Part,
    pub layers: Part,
}

// The value of `key` in the dictionary at `at`, if it is a dictionary.
fn find_dictionary(torrent: &[u8], at: usize, key: &[u8]) -> Option<Part>
    ensures { result ≡ dictionary_in torrent.now (find_key key.now at (drop at torrent.now)) }
{
    let found = find(torrent, at, key)?;
    if is_dictionary(torrent, found.start) {
        return Some(found);
    }
    None
}

// The value of `key` in the dictionary at `at`, if it is an integer.
fn find_integer(torrent: &[u8], at: usize, key: &[u8]) -> Option<Integer>
    ensures { result ≡ integer_in torrent.now (find_key key.now at (drop at torrent.now)) }
{
    let found = find(torrent, at, key)?;
    read_integer(torrent, found.start)
}

// 23, 24 or the keys, of which none is missing; `below` and `minus` are the signs of the piece length and the version.
fn right_keys(keys: Keys, below: bool, minus: bool, version: usize) -> Result<Keys, Refused>
    ensures { as_keys result ≡ right_keys (found_keys keys) below minus version }
{
    if minus {
        return Err(Refused::OtherVersion);
    }
    if version != VERSION {
        return Err(Refused::OtherVersion);
    }
    if below {
        return Err(Refused::PieceLengthOutOfRange);
    }
    if is_piece_length(keys.plen) {
        return Ok(keys);
    }
    Err(Refused::PieceLengthOutOfRange)
}

// The keys, or 22, 23 or 24, where `piece length` and `meta version` are still to be found in `info`.
fn info_keys(torrent: &[u8], info: Part, tree: Part, layers: Part) -> Result<Keys, Refused>
    ensures { as_keys result ≡ info_keys torrent.now info tree layers }
{
    let at = info.start;
    match find_integer(torrent, at, b"piece length") {
        None => Err(Refused::KeyMissing),
        Some(length) => match find_integer(torrent, at, b"meta version") {
            None => Err(Refused::KeyMissing),
            Some(version) => {
                let keys = Keys {
                    plen: length.size,
                    info,
                    tree,
                    layers,
                };
                right_keys(keys, length.minus, version.minus, version.size)
            }
        },
    }
}

// The keys, or 22 to 24, where `file tree` and `piece layers` are still to be found as well.
fn dictionary_keys(torrent: &[u8], info: Part) -> Result<Keys, Refused>
    ensures { as_keys result ≡ dictionary_keys torrent.now info }
{
    let at = info.start;
    match find_dictionary(torrent, at, b"file tree") {
        None => Err(Refused::KeyMissing),
        Some(tree) => match find_dictionary(torrent, 0, b"piece layers") {
            None => Err(Refused::KeyMissing),
            Some(layers) => info_keys(torrent, info, tree, layers),
        },
    }
}

// The keys of bytes that are strict, or 22 to 24.
fn find_keys(torrent: &[u8]) -> Result<Keys, Refused>
    ensures { as_keys result ≡ keys_of torrent.now }
{
    match find_dictionary(torrent, 0, b"info") {
        None => Err(Refused::KeyMissing),
        Some(info) => dictionary_keys(torrent, info),
    }
}

// The keys of any bytes, or 19 to 24.
pub fn read_keys(torrent: &[u8]) -> Result<Keys, Refused>
    ensures { as_keys result ≡ metainfo_of torrent.now }
{
    if torrent.len() > LARGEST_TORRENT {
        return Err(Refused::TorrentTooLarge);
    }
    strict(torrent)?;
    find_keys(torrent)
}
