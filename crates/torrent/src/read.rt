// What is answered of a torrent: the torrent itself, one of its files, an element of its path.
ghost use Rattle.std.specs.Prelude.{◌≡◌, true, ◌+◌, ◌≤◌, ◌<◌};
ghost use Rattle.std.proofs.Math.ListN as L;
ghost use Rattle.limits.specs.Limits.{largest_torrent};
ghost use Rattle.filetree.specs.Tree.{files_in, right, listed, file_number};
ghost use Rattle.torrent.specs.Find.{PathGiven, ElementRead};
ghost use Rattle.torrent.specs.Torrent.{as_torrent, read_of, found_file, as_file, file_answer, file_read, as_part, element_in, path_read};

use crate::check::check;
use crate::one::{find_file, layer_of, root_of};
use bencode::part::Part;
use filetree::path::PATH;
use numbers::Refused;

// The info hash, the piece length and how many files.
#[derive(Clone, Copy)]
pub struct Torrent {
    pub hash: [u8; 32],
    pub plen: usize,
    pub files: usize,
}

// A file: its length, its root, how many path elements, and its layer's part, 0 and 0 if it has none.
#[derive(Clone, Copy)]
pub struct FileRead {
    pub length: usize,
    pub root: [u8; 32],
    pub elements: usize,
    pub start: usize,
    pub size: usize,
}

// A part of the torrent.
#[derive(Clone, Copy)]
pub struct PartRead {
    pub start: usize,
    pub size: usize,
}

// The torrent itself; or 19 to 28 or 31.
pub fn read(torrent: &[u8]) -> Result<Torrent, Refused>
    ensures { as_torrent result ≡ read_of torrent.now }
{
    let c = check(torrent)?;
    let info = c.keys.info.start;
    let past = c.keys.info.end;
    let hash = sha256::hash(&torrent[info..past]);
    Ok(Torrent {
        hash,
        plen: c.keys.plen,
        files: c.files,
    })
}

// File `file` of the right `tree`; `layers` begins at `base` of the torrent.
fn one_file(tree: &[u8], layers: &[u8], base: usize, plen: usize, file: usize) -> FileRead
    requires { (right (files_in tree.now) ≡ true) × (file < L.length (listed (files_in tree.now))) × (base + L.length layers.now ≤ largest_torrent) }
    ensures { found_file result ≡ file_answer tree.now layers.now base plen (file_number (listed (files_in tree.now)) file) }
{
    let mut path = [0usize; PATH];
    let f = find_file(tree, file, &mut path);
    let length = f.length;
    let at = f.root;
    let elements = f.elements;
    let root = root_of(tree, length, at);
    match layer_of(tree, layers, plen, length, at) {
        None => FileRead {
            length,
            root,
            elements,
            start: 0,
            size: 0,
        },
        Some(Part { start, end }) => FileRead {
            length,
            root,
            elements,
            start: base + start,
            size: end - start,
        },
    }
}

// File `file` in tree order, from 0; or 19 to 29 or 31.
pub fn read_file(torrent: &[u8], file: usize) -> Result<FileRead, Refused>
    ensures { as_file result ≡ file_read torrent.now file }
{
    let c = check(torrent)?;
    let plen = c.keys.plen;
    let tree = c.keys.tree.start;
    let tree_end = c.keys.tree.end;
    let layers = c.keys.layers.start;
    let layers_end = c.keys.layers.end;
    if file >= c.files {
        return Err(Refused::NoSuchPart);
    }
    Ok(one_file(
        &torrent[tree..tree_end],
        &torrent[layers..layers_end],
        layers,
        plen,
        file,
    ))
}

// Element `element` of a path of so many elements, of a tree that begins at `base` of the torrent; or 29.
fn element_of(
    path: &[usize],
    elements: usize,
    base: usize,
    element: usize,
) -> Result<PartRead, Refused>
    requires { PathGiven path.now elements base }
    ensures { ElementRead path.now elements base element (as_part result) }
{
    if element < elements {
        let start = path[2 * element];
        let end = path[2 * element + 1];
        return Ok(PartRead {
            start: base + start,
            size: end - start,
        });
    }
    Err(Refused::NoSuchPart)
}

// Element `element` of the path of `file` of the right `tree`, which begins at `base` of the torrent; or 29.
fn one_element(tree: &[u8], base: usize, file: usize, element: usize) -> Result<PartRead, Refused>
    requires { (right (files_in tree.now) ≡ true) × (file < L.length (listed (files_in tree.now))) × (base + L.length tree.now ≤ largest_torrent) }
    ensures { as_part result ≡ element_in base (file_number (listed (files_in tree.now)) file).path element }
{
    let mut path = [0usize; PATH];
    let f = find_file(tree, file, &mut path);
    element_of(&path, f.elements, base, element)
}

// Element `element`, from 0, of the path of `file`; or 19 to 29 or 31.
pub fn read_path(torrent: &[u8], file: usize, element: usize) -> Result<PartRead, Refused>
    ensures { as_part result ≡ path_read torrent.now file element }
{
    let c = check(torrent)?;
    let tree = c.keys.tree.start;
    let tree_end = c.keys.tree.end;
    if file >= c.files {
        return Err(Refused::NoSuchPart);
    }
    one_element(&torrent[tree..tree_end], tree, file, element)
}
