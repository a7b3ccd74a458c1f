// The boundary to the host program: include/kombudeva.h says what each function answers; kombudeva_c exports each under its name.
// Each passes its arguments on to the crate that decides, and hands back the answer as a C struct.
#![tactic(auto)]

ghost use Rattle.std.specs.Prelude.{◌≡◌, []};
ghost use Rattle.sha256.specs.Answer.{hashed_of};
ghost use Rattle.sha_1.specs.Answer.{sha1_of};
ghost use Rattle.running.specs.Bursts as B;
ghost use Rattle.history.specs.Answers as W;
ghost use Rattle.store.specs.Store.{size_answer, open_answer, open_after, held_answer};
ghost use Rattle.facts.specs.Facts.{as_read, facts_answer};
ghost use Rattle.messages.specs.Take.{take_answer, take_after, reject_answer};
ghost use Rattle.serve.specs.Serve.{serve_answer, serve_after};
ghost use Rattle.marks.specs.Marks.{clear_answer, clear_after, marked_answer, field_answer, field_after};
ghost use Rattle.asking.specs.Asking.{next_answer};
ghost use Rattle.asking.specs.Picking.{pick_answer};
ghost use Rattle.extends.specs.Extends.{extends_answer};
ghost use Rattle.pieces.specs.Pieces.{layer_answer, layer_after, block_answer, block_after, piece_answer, piece_after};
ghost use Rattle.pieces.specs.Hybrid as Both;
ghost use Rattle.leaves.specs.Leaves.{leaves_answer, leaves_after};
ghost use Rattle.saved.specs.Save.{save_answer, save_after};
ghost use Rattle.saved.specs.Saved.{load_answer, load_after, repair_answer, repair_after};
ghost use Rattle.torrent.specs.Torrent.{read_of, as_torrent, file_read, as_file, path_read, as_part};
ghost use Rattle.catalogue.specs.Catalogue.{list_answer, list_after};
ghost use Rattle.about.specs.About.{info_read, name_read};
ghost use Rattle.v1.specs.V1 as V;
ghost use Rattle.v1.specs.V1.{hybrid_of, v1_piece_of, v1_pieces_of};
ghost use Rattle.places.specs.Places.{place_answer, first_answer};
ghost use Rattle.writer.specs.Write.{write_answer, write_after};
ghost use Rattle.frames.specs.Frames.{frame_answer, frame_after};
ghost use Rattle.stream.specs.Reading.{between, hear_answer, hear_room};
ghost use Rattle.kombudeva.specs.Boundary.{count_answer, hash_answer, facts_struct, torrent_answer, file_answer, part_answer, hybrid_answer, v1_piece_answer, v1_part_answer};
ghost use Rattle.kombudeva.specs.Version.{version};

use asking::next::Request;
use asking::pick::Choice;
use facts::FileFacts;
use history::{History, HistoryAnswer, HistoryEnd};
use numbers::{Answer, Refused};
use places::Placed;
use running::{Hashing, HashingAnswer};
use saved::repair::Repaired;
use sha_1::Sha1Answer;
use sha256::Hashed;
use stream::{Heard, Stream};
use torrent::read::{FileRead, PartRead, Torrent};
use v1::read::{V1Part, V1Piece};

// KD_VERSION_NUMBER
pub const VERSION: u32 = 15000;

// kd_hash
#[repr(C)]
#[derive(Clone, Copy)]
pub struct Hash {
    pub bytes: [u8; 32],
}

// kd_sha1_hash
#[repr(C)]
#[derive(Clone, Copy)]
pub struct Sha1Hash {
    pub bytes: [u8; 20],
}

// kd_answer
#[repr(C)]
#[derive(Clone, Copy)]
pub struct CountAnswer {
    pub number: u32,
    pub count: u64,
}

// kd_hashed
#[repr(C)]
#[derive(Clone, Copy)]
pub struct HashAnswer {
    pub number: u32,
    pub hash: Hash,
}

// kd_facts_answer
#[repr(C)]
#[derive(Clone, Copy)]
pub struct FactsAnswer {
    pub number: u32,
    pub length: u64,
    pub piece_length: u64,
    pub root: Hash,
}

// kd_torrent
#[repr(C)]
#[derive(Clone, Copy)]
pub struct TorrentAnswer {
    pub number: u32,
    pub info_hash: Hash,
    pub piece_length: u64,
    pub files: u64,
}

// kd_file
#[repr(C)]
#[derive(Clone, Copy)]
pub struct FileAnswer {
    pub number: u32,
    pub length: u64,
    pub root: Hash,
    pub elements: u64,
    pub layer_start: u64,
    pub layer_size: u64,
}

// kd_part
#[repr(C)]
#[derive(Clone, Copy)]
pub struct PartAnswer {
    pub number: u32,
    pub start: u64,
    pub size: u64,
}

// kd_hybrid
#[repr(C)]
#[derive(Clone, Copy)]
pub struct HybridAnswer {
    pub number: u32,
    pub hybrid: u32,
    pub info_hash: Sha1Hash,
}

// kd_v1_piece
#[repr(C)]
#[derive(Clone, Copy)]
pub struct V1PieceAnswer {
    pub number: u32,
    pub hash: Sha1Hash,
    pub zeros: u64,
}

// kd_v1_part
#[repr(C)]
#[derive(Clone, Copy)]
pub struct V1PartAnswer {
    pub number: u32,
    pub start: u64,
    pub size: u64,
    pub zeros: u64,
}

impl From<Answer> for CountAnswer {
    ghost from_gives = { λ read answer. answer ≡ count_answer read };

    #[tactic(auto, unfolding(crate::specs::Boundary::count_answer))]
    fn from(read: Answer) -> CountAnswer {
        CountAnswer {
            number: read.number,
            count: read.count,
        }
    }
}

impl From<Hashed> for HashAnswer {
    ghost from_gives = { λ read answer. answer ≡ hash_answer read };

    #[tactic(auto, unfolding(crate::specs::Boundary::hash_answer))]
    fn from(read: Hashed) -> HashAnswer {
        let bytes = read.hash;
        HashAnswer {
            number: read.number,
            hash: Hash { bytes },
        }
    }
}

impl From<Result<FileFacts, Refused>> for FactsAnswer {
    ghost from_gives = { λ outcome answer. answer ≡ facts_struct (as_read outcome) };

    #[tactic(auto, unfolding(crate::specs::Boundary::facts_struct, octets::specs::Octets::zero_hash))]
    fn from(outcome: Result<FileFacts, Refused>) -> FactsAnswer {
        match outcome {
            Ok(facts) => {
                let bytes = facts.root;
                FactsAnswer {
                    number: numbers::DONE,
                    length: facts.length as u64,
                    piece_length: facts.plen as u64,
                    root: Hash { bytes },
                }
            }
            Err(why) => FactsAnswer {
                number: u32::from(why),
                length: 0,
                piece_length: 0,
                root: Hash { bytes: [0u8; 32] },
            },
        }
    }
}

impl From<Result<Torrent, Refused>> for TorrentAnswer {
    ghost from_gives = { λ outcome answer. answer ≡ torrent_answer (as_torrent outcome) };

    #[tactic(auto, unfolding(crate::specs::Boundary::torrent_answer, octets::specs::Octets::zero_hash))]
    fn from(outcome: Result<Torrent, Refused>) -> TorrentAnswer {
        match outcome {
            Ok(torrent) => {
                let bytes = torrent.hash;
                TorrentAnswer {
                    number: numbers::DONE,
                    info_hash: Hash { bytes },
                    piece_length: torrent.plen as u64,
                    files: torrent.files as u64,
                }
            }
            Err(why) => TorrentAnswer {
                number: u32::from(why),
                info_hash: Hash { bytes: [0u8; 32] },
                piece_length: 0,
                files: 0,
            },
        }
    }
}

impl From<Result<FileRead, Refused>> for FileAnswer {
    ghost from_gives = { λ outcome answer. answer ≡ file_answer (as_file outcome) };

    #[tactic(auto, unfolding(crate::specs::Boundary::file_answer, octets::specs::Octets::zero_hash))]
    fn from(outcome: Result<FileRead, Refused>) -> FileAnswer {
        match outcome {
            Ok(file) => {
                let bytes = file.root;
                FileAnswer {
                    number: numbers::DONE,
                    length: file.length as u64,
                    root: Hash { bytes },
                    elements: file.elements as u64,
                    layer_start: file.start as u64,
                    layer_size: file.size as u64,
                }
            }
            Err(why) => FileAnswer {
                number: u32::from(why),
                length: 0,
                root: Hash { bytes: [0u8; 32] },
                elements: 0,
                layer_start: 0,
                layer_size: 0,
            },
        }
    }
}

impl From<Result<PartRead, Refused>> for PartAnswer {
    ghost from_gives = { λ outcome answer. answer ≡ part_answer (as_part outcome) };

    #[tactic(auto, unfolding(crate::specs::Boundary::part_answer))]
    fn from(outcome: Result<PartRead, Refused>) -> PartAnswer {
        match outcome {
            Ok(part) => PartAnswer {
                number: numbers::DONE,
                start: part.start as u64,
                size: part.size as u64,
            },
            Err(why) => PartAnswer {
                number: u32::from(why),
                start: 0,
                size: 0,
            },
        }
    }
}

impl From<Result<Option<[u8; 20]>, Refused>> for HybridAnswer {
    ghost from_gives = { λ outcome answer. answer ≡ hybrid_answer (V.as_hybrid outcome) };

    #[tactic(auto, unfolding(crate::specs::Boundary::hybrid_answer, sha_1::specs::Answer::zero_sha1))]
    fn from(outcome: Result<Option<[u8; 20]>, Refused>) -> HybridAnswer {
        match outcome {
            Ok(Some(bytes)) => HybridAnswer {
                number: numbers::DONE,
                hybrid: 1,
                info_hash: Sha1Hash { bytes },
            },
            Ok(None) => HybridAnswer {
                number: numbers::DONE,
                hybrid: 0,
                info_hash: Sha1Hash { bytes: [0u8; 20] },
            },
            Err(why) => HybridAnswer {
                number: u32::from(why),
                hybrid: 0,
                info_hash: Sha1Hash { bytes: [0u8; 20] },
            },
        }
    }
}

impl From<Result<V1Piece, Refused>> for V1PieceAnswer {
    ghost from_gives = { λ outcome answer. answer ≡ v1_piece_answer (V.as_piece outcome) };

    #[tactic(auto, unfolding(crate::specs::Boundary::v1_piece_answer, sha_1::specs::Answer::zero_sha1))]
    fn from(outcome: Result<V1Piece, Refused>) -> V1PieceAnswer {
        match outcome {
            Ok(piece) => {
                let bytes = piece.hash;
                V1PieceAnswer {
                    number: numbers::DONE,
                    hash: Sha1Hash { bytes },
                    zeros: piece.zeros as u64,
                }
            }
            Err(why) => V1PieceAnswer {
                number: u32::from(why),
                hash: Sha1Hash { bytes: [0u8; 20] },
                zeros: 0,
            },
        }
    }
}

impl From<Result<V1Part, Refused>> for V1PartAnswer {
    ghost from_gives = { λ outcome answer. answer ≡ v1_part_answer (V.as_part outcome) };

    #[tactic(auto, unfolding(crate::specs::Boundary::v1_part_answer))]
    fn from(outcome: Result<V1Part, Refused>) -> V1PartAnswer {
        match outcome {
            Ok(part) => V1PartAnswer {
                number: numbers::DONE,
                start: part.start as u64,
                size: part.size as u64,
                zeros: part.zeros as u64,
            },
            Err(why) => V1PartAnswer {
                number: u32::from(why),
                start: 0,
                size: 0,
                zeros: 0,
            },
        }
    }
}

pub fn kd_version() -> u32
    ensures { result ≡ version }
{
    VERSION
}

pub fn kd_sha256(string: &[u8]) -> HashAnswer
    ensures { result ≡ hash_answer (hashed_of string.now) }
{
    HashAnswer::from(sha256::sha256(string))
}

pub fn kd_sha1(string: &[u8]) -> Sha1Answer
    ensures { result ≡ sha1_of string.now }
{
    sha_1::sha1(string)
}

pub fn kd_hashing_begin() -> Hashing
    ensures { result ≡ B.state_of [] }
{
    running::begin()
}

pub fn kd_hashing_more(hashing: Hashing, burst: &[u8]) -> HashingAnswer
    ensures { result ≡ B.more_answer hashing burst.now }
{
    running::more(hashing, burst)
}

pub fn kd_hashing_end(hashing: Hashing) -> HashAnswer
    ensures { result ≡ hash_answer (B.end_answer hashing) }
{
    HashAnswer::from(running::end(hashing))
}

pub fn kd_history_begin(piece_length: u64) -> HistoryAnswer
    ensures { result ≡ W.begin_answer piece_length }
{
    history::begin(piece_length as usize)
}

pub fn kd_history_more(history: History, burst: &[u8], layer: &mut [u8]) -> HistoryAnswer
    ensures { (result ≡ W.more_answer history burst.now layer.old) × (layer.new ≡ W.more_layer history burst.now layer.old) }
{
    history::more(history, burst, layer)
}

pub fn kd_history_end(history: History, layer: &mut [u8]) -> HistoryEnd
    ensures { (result ≡ W.end_answer history layer.old) × (layer.new ≡ W.end_layer history layer.old) }
{
    history::end(history, layer)
}

pub fn kd_store_size(length: u64, piece_length: u64) -> CountAnswer
    ensures { result ≡ count_answer (size_answer length piece_length) }
{
    CountAnswer::from(store::store_size(length as usize, piece_length as usize))
}

pub fn kd_open(store: &mut [u8], length: u64, piece_length: u64, root: Hash) -> CountAnswer
    ensures { (result ≡ count_answer (open_answer store.old length piece_length)) × (store.new ≡ open_after store.old length piece_length root.bytes) }
{
    let bytes = root.bytes;
    CountAnswer::from(store::open(store, length as usize, piece_length as usize, bytes))
}

pub fn kd_facts(store: &[u8]) -> FactsAnswer
    ensures { result ≡ facts_struct (facts_answer store.now) }
{
    FactsAnswer::from(facts::read_facts(store))
}

pub fn kd_held(store: &[u8], layer: u64, index: u64) -> HashAnswer
    ensures { result ≡ hash_answer (held_answer store.now layer index) }
{
    HashAnswer::from(store::held_hash(store, layer as usize, index as usize))
}

pub fn kd_take(store: &mut [u8], message: &[u8]) -> CountAnswer
    ensures { (result ≡ count_answer (take_answer store.old message.now)) × (store.new ≡ take_after store.old message.now) }
{
    CountAnswer::from(messages::take::take(store, message))
}

pub fn kd_take_reject(store: &[u8], message: &[u8]) -> CountAnswer
    ensures { result ≡ count_answer (reject_answer store.now message.now) }
{
    CountAnswer::from(messages::take::take_reject(store, message))
}

pub fn kd_serve(store: &[u8], request: &[u8], out: &mut [u8]) -> CountAnswer
    ensures { (result ≡ count_answer (serve_answer store.now request.now out.old)) × (out.new ≡ serve_after store.now request.now out.old) }
{
    CountAnswer::from(serve::serve(store, request, out))
}

pub fn kd_load_layer(store: &mut [u8], layer: &[u8]) -> CountAnswer
    ensures { (result ≡ count_answer (layer_answer store.old layer.now)) × (store.new ≡ layer_after store.old layer.now) }
{
    CountAnswer::from(pieces::load_layer(store, layer))
}

pub fn kd_judge_block(store: &mut [u8], block: u64, bytes: &[u8]) -> CountAnswer
    ensures { (result ≡ count_answer (block_answer store.old block bytes.now)) × (store.new ≡ block_after store.old block bytes.now) }
{
    CountAnswer::from(pieces::judge_block(store, block as usize, bytes))
}

pub fn kd_judge_piece(store: &mut [u8], piece: u64, bytes: &[u8]) -> CountAnswer
    ensures { (result ≡ count_answer (piece_answer store.old piece bytes.now)) × (store.new ≡ piece_after store.old piece bytes.now) }
{
    CountAnswer::from(pieces::judge_piece(store, piece as usize, bytes))
}

pub fn kd_judge_hybrid_piece(
    store: &mut [u8],
    piece: u64,
    bytes: &[u8],
    v1: Sha1Hash,
    zeros: u64,
) -> CountAnswer
    ensures { (result ≡ count_answer (Both.hybrid_answer store.old piece bytes.now v1.bytes zeros)) × (store.new ≡ Both.hybrid_after store.old piece bytes.now v1.bytes zeros) }
{
    let hash = v1.bytes;
    CountAnswer::from(pieces::judge_hybrid_piece(
        store,
        piece as usize,
        bytes,
        hash,
        zeros as usize,
    ))
}

pub fn kd_piece_hashes(store: &[u8], piece: u64, bytes: &[u8], out: &mut [u8]) -> CountAnswer
    ensures { (result ≡ count_answer (leaves_answer store.now piece bytes.now out.old)) × (out.new ≡ leaves_after store.now piece bytes.now out.old) }
{
    CountAnswer::from(leaves::piece_hashes(store, piece as usize, bytes, out))
}

pub fn kd_marked(store: &[u8], block: u64) -> CountAnswer
    ensures { result ≡ count_answer (marked_answer store.now block) }
{
    CountAnswer::from(marks::marked_block(store, block as usize))
}

pub fn kd_clear(store: &mut [u8], block: u64) -> CountAnswer
    ensures { (result ≡ count_answer (clear_answer store.old block)) × (store.new ≡ clear_after store.old block) }
{
    CountAnswer::from(marks::clear_mark(store, block as usize))
}

pub fn kd_bitfield(store: &[u8], out: &mut [u8]) -> CountAnswer
    ensures { (result ≡ count_answer (field_answer store.now out.old)) × (out.new ≡ field_after store.now out.old) }
{
    CountAnswer::from(marks::bitfield(store, out))
}

pub fn kd_next_request(store: &[u8], layer: u64) -> Request
    ensures { result ≡ next_answer store.now layer }
{
    asking::next::next_request(store, layer as usize)
}

pub fn kd_pick_piece(store: &[u8], counts: &[u32]) -> Choice
    ensures { result ≡ pick_answer store.now counts.now }
{
    asking::pick::pick_piece(store, counts)
}

// Whether the store's file begins with an earlier one, of this length and root.
pub fn kd_extends(store: &[u8], length: u64, root: Hash, block: &[u8]) -> CountAnswer
    ensures { result ≡ count_answer (extends_answer store.now length root.bytes block.now) }
{
    let bytes = root.bytes;
    CountAnswer::from(extends::extends(store, length as usize, bytes, block))
}

pub fn kd_save(store: &[u8], out: &mut [u8]) -> CountAnswer
    ensures { (result ≡ count_answer (save_answer store.now out.old)) × (out.new ≡ save_after store.now out.old) }
{
    CountAnswer::from(saved::save::save(store, out))
}

pub fn kd_load(store: &mut [u8], bytes: &[u8]) -> CountAnswer
    ensures { (result ≡ count_answer (load_answer store.old bytes.now)) × (store.new ≡ load_after store.old bytes.now) }
{
    CountAnswer::from(saved::load::load(store, bytes))
}

pub fn kd_repair(store: &mut [u8], bytes: &[u8]) -> Repaired
    ensures { (result ≡ repair_answer store.old bytes.now) × (store.new ≡ repair_after store.old bytes.now) }
{
    saved::repair::repair(store, bytes)
}

pub fn kd_torrent_read(torrent: &[u8]) -> TorrentAnswer
    ensures { result ≡ torrent_answer (read_of torrent.now) }
{
    TorrentAnswer::from(torrent::read::read(torrent))
}

pub fn kd_torrent_file(torrent: &[u8], file: u64) -> FileAnswer
    ensures { result ≡ file_answer (file_read torrent.now file) }
{
    FileAnswer::from(torrent::read::read_file(torrent, file as usize))
}

pub fn kd_torrent_path(torrent: &[u8], file: u64, element: u64) -> PartAnswer
    ensures { result ≡ part_answer (path_read torrent.now file element) }
{
    PartAnswer::from(torrent::read::read_path(torrent, file as usize, element as usize))
}

pub fn kd_torrent_list(torrent: &[u8], out: &mut [u8]) -> CountAnswer
    ensures { (result ≡ count_answer (list_answer torrent.now out.old)) × (out.new ≡ list_after torrent.now out.old) }
{
    CountAnswer::from(catalogue::list(torrent, out))
}

pub fn kd_torrent_info(torrent: &[u8]) -> PartAnswer
    ensures { result ≡ part_answer (info_read torrent.now) }
{
    PartAnswer::from(about::read_info(torrent))
}

pub fn kd_torrent_name(torrent: &[u8]) -> PartAnswer
    ensures { result ≡ part_answer (name_read torrent.now) }
{
    PartAnswer::from(about::read_name(torrent))
}

pub fn kd_torrent_hybrid(torrent: &[u8]) -> HybridAnswer
    ensures { result ≡ hybrid_answer (hybrid_of torrent.now) }
{
    HybridAnswer::from(v1::read::read_hybrid(torrent))
}

pub fn kd_torrent_v1_piece(torrent: &[u8], file: u64, piece: u64) -> V1PieceAnswer
    ensures { result ≡ v1_piece_answer (v1_piece_of torrent.now file piece) }
{
    V1PieceAnswer::from(v1::read::v1_piece(torrent, file as usize, piece as usize))
}

pub fn kd_torrent_v1_pieces(torrent: &[u8], file: u64) -> V1PartAnswer
    ensures { result ≡ v1_part_answer (v1_pieces_of torrent.now file) }
{
    V1PartAnswer::from(v1::read::v1_pieces(torrent, file as usize))
}

pub fn kd_place(list: &[u8], piece_length: u64, piece: u64) -> Placed
    ensures { result ≡ place_answer list.now piece_length piece }
{
    places::place(list, piece_length as usize, piece as usize)
}

pub fn kd_first_piece(list: &[u8], piece_length: u64, file: u64) -> CountAnswer
    ensures { result ≡ count_answer (first_answer list.now piece_length file) }
{
    CountAnswer::from(places::first_piece(list, piece_length as usize, file as usize))
}

pub fn kd_torrent_write(
    list: &[u8],
    text: &[u8],
    piece_length: u64,
    name: &[u8],
    out: &mut [u8],
) -> CountAnswer
    ensures { (result ≡ count_answer (write_answer list.now text.now piece_length name.now out.old)) × (out.new ≡ write_after list.now text.now piece_length name.now out.old) }
{
    CountAnswer::from(writer::write(list, text, piece_length as usize, name, out))
}

pub fn kd_stream_begin() -> Stream
    ensures { result ≡ between }
{
    stream::begin()
}

pub fn kd_stream_hear(standing: Stream, bytes: &[u8], room: &mut [u8]) -> Heard
    ensures { (result ≡ hear_answer standing room.old bytes.now) × (room.new ≡ hear_room standing room.old bytes.now) }
{
    stream::hear(standing, bytes, room)
}

pub fn kd_frame(message: &[u8], out: &mut [u8]) -> CountAnswer
    ensures { (result ≡ count_answer (frame_answer message.now out.old)) × (out.new ≡ frame_after message.now out.old) }
{
    CountAnswer::from(frames::frame(message, out))
}
