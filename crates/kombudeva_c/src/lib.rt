// What C calls, under the names of include/kombudeva.h: each function hands its arguments to kombudeva's of the same name, and says what that says.
#![tactic(auto)]

ghost use Rattle.std.specs.Prelude.{◌≡◌, []};
ghost use Rattle.sha256.specs.Answer.{hashed_of};
ghost use Rattle.sha_1.specs.Answer.{sha1_of};
ghost use Rattle.running.specs.Bursts as B;
ghost use Rattle.history.specs.Answers as W;
ghost use Rattle.store.specs.Store.{size_answer, open_answer, open_after, held_answer};
ghost use Rattle.facts.specs.Facts.{facts_answer};
ghost use Rattle.messages.specs.Take.{take_answer, take_after, reject_answer};
ghost use Rattle.serve.specs.Serve.{serve_answer, serve_after};
ghost use Rattle.marks.specs.Marks.{clear_answer, clear_after, marked_answer, field_answer, field_after};
ghost use Rattle.asking.specs.Asking.{next_answer};
ghost use Rattle.asking.specs.Picking.{pick_answer};
ghost use Rattle.extends.specs.Extends.{extends_answer};
ghost use Rattle.pieces.specs.Pieces.{layer_answer, layer_after, block_answer, block_after, piece_answer, piece_after};
ghost use Rattle.pieces.specs.Hybrid as Both;
ghost use Rattle.leaves.specs.Leaves.{leaves_answer, leaves_after};
ghost use Rattle.saved.specs.Save.{save_answer, save_after};
ghost use Rattle.saved.specs.Saved.{load_answer, load_after, repair_answer, repair_after};
ghost use Rattle.torrent.specs.Torrent.{read_of, file_read, path_read};
ghost use Rattle.catalogue.specs.Catalogue.{list_answer, list_after};
ghost use Rattle.about.specs.About.{info_read, name_read};
ghost use Rattle.v1.specs.V1.{hybrid_of, v1_piece_of, v1_pieces_of};
ghost use Rattle.places.specs.Places.{place_answer, first_answer};
ghost use Rattle.writer.specs.Write.{write_answer, write_after};
ghost use Rattle.frames.specs.Frames.{frame_answer, frame_after};
ghost use Rattle.stream.specs.Reading.{between, hear_answer, hear_room};
ghost use Rattle.kombudeva.specs.Boundary.{count_answer, hash_answer, facts_struct, torrent_answer, file_answer, part_answer, hybrid_answer, v1_piece_answer, v1_part_answer};
ghost use Rattle.kombudeva.specs.Version.{version};

use asking::next::Request;
use asking::pick::Choice;
use history::{History, HistoryAnswer, HistoryEnd};
use kombudeva::{
    CountAnswer, FactsAnswer, FileAnswer, Hash, HashAnswer, HybridAnswer, PartAnswer, Sha1Hash,
    TorrentAnswer, V1PartAnswer, V1PieceAnswer,
};
use places::Placed;
use running::{Hashing, HashingAnswer};
use saved::repair::Repaired;
use sha_1::Sha1Answer;
use stream::{Heard, Stream};

#[unsafe(no_mangle)]
pub extern "C" fn kd_version() -> u32
    ensures { result ≡ version }
{
    kombudeva::kd_version()
}

#[unsafe(no_mangle)]
pub extern "C" fn kd_sha256(string: &[u8]) -> HashAnswer
    ensures { result ≡ hash_answer (hashed_of string.now) }
{
    kombudeva::kd_sha256(string)
}

#[unsafe(no_mangle)]
pub extern "C" fn kd_sha1(string: &[u8]) -> Sha1Answer
    ensures { result ≡ sha1_of string.now }
{
    kombudeva::kd_sha1(string)
}

#[unsafe(no_mangle)]
pub extern "C" fn kd_hashing_begin() -> Hashing
    ensures { result ≡ B.state_of [] }
{
    kombudeva::kd_hashing_begin()
}

#[unsafe(no_mangle)]
pub extern "C" fn kd_hashing_more(hashing: Hashing, burst: &[u8]) -> HashingAnswer
    ensures { result ≡ B.more_answer hashing burst.now }
{
    kombudeva::kd_hashing_more(hashing, burst)
}

#[unsafe(no_mangle)]
pub extern "C" fn kd_hashing_end(hashing: Hashing) -> HashAnswer
    ensures { result ≡ hash_answer (B.end_answer hashing) }
{
    kombudeva::kd_hashing_end(hashing)
}

#[unsafe(no_mangle)]
pub extern "C" fn kd_history_begin(piece_length: u64) -> HistoryAnswer
    ensures { result ≡ W.begin_answer piece_length }
{
    kombudeva::kd_history_begin(piece_length)
}

#[unsafe(no_mangle)]
pub extern "C" fn kd_history_more(history: History, burst: &[u8], layer: &mut [u8]) -> HistoryAnswer
    ensures { (result ≡ W.more_answer history burst.now layer.old) × (layer.new ≡ W.more_layer history burst.now layer.old) }
{
    kombudeva::kd_history_more(history, burst, layer)
}

#[unsafe(no_mangle)]
pub extern "C" fn kd_history_end(history: History, layer: &mut [u8]) -> HistoryEnd
    ensures { (result ≡ W.end_answer history layer.old) × (layer.new ≡ W.end_layer history layer.old) }
{
    kombudeva::kd_history_end(history, layer)
}

#[unsafe(no_mangle)]
pub extern "C" fn kd_store_size(length: u64, piece_length: u64) -> CountAnswer
    ensures { result ≡ count_answer (size_answer length piece_length) }
{
    kombudeva::kd_store_size(length, piece_length)
}

#[unsafe(no_mangle)]
pub extern "C" fn kd_open(
    store: &mut [u8],
    length: u64,
    piece_length: u64,
    root: Hash,
) -> CountAnswer
    ensures { (result ≡ count_answer (open_answer store.old length piece_length)) × (store.new ≡ open_after store.old length piece_length root.bytes) }
{
    kombudeva::kd_open(store, length, piece_length, root)
}

#[unsafe(no_mangle)]
pub extern "C" fn kd_facts(store: &[u8]) -> FactsAnswer
    ensures { result ≡ facts_struct (facts_answer store.now) }
{
    kombudeva::kd_facts(store)
}

#[unsafe(no_mangle)]
pub extern "C" fn kd_held(store: &[u8], layer: u64, index: u64) -> HashAnswer
    ensures { result ≡ hash_answer (held_answer store.now layer index) }
{
    kombudeva::kd_held(store, layer, index)
}

#[unsafe(no_mangle)]
pub extern "C" fn kd_take(store: &mut [u8], message: &[u8]) -> CountAnswer
    ensures { (result ≡ count_answer (take_answer store.old message.now)) × (store.new ≡ take_after store.old message.now) }
{
    kombudeva::kd_take(store, message)
}

#[unsafe(no_mangle)]
pub extern "C" fn kd_take_reject(store: &[u8], message: &[u8]) -> CountAnswer
    ensures { result ≡ count_answer (reject_answer store.now message.now) }
{
    kombudeva::kd_take_reject(store, message)
}

#[unsafe(no_mangle)]
pub extern "C" fn kd_serve(store: &[u8], request: &[u8], out: &mut [u8]) -> CountAnswer
    ensures { (result ≡ count_answer (serve_answer store.now request.now out.old)) × (out.new ≡ serve_after store.now request.now out.old) }
{
    kombudeva::kd_serve(store, request, out)
}

#[unsafe(no_mangle)]
pub extern "C" fn kd_load_layer(store: &mut [u8], layer: &[u8]) -> CountAnswer
    ensures { (result ≡ count_answer (layer_answer store.old layer.now)) × (store.new ≡ layer_after store.old layer.now) }
{
    kombudeva::kd_load_layer(store, layer)
}

#[unsafe(no_mangle)]
pub extern "C" fn kd_judge_block(store: &mut [u8], block: u64, bytes: &[u8]) -> CountAnswer
    ensures { (result ≡ count_answer (block_answer store.old block bytes.now)) × (store.new ≡ block_after store.old block bytes.now) }
{
    kombudeva::kd_judge_block(store, block, bytes)
}

#[unsafe(no_mangle)]
pub extern "C" fn kd_judge_piece(store: &mut [u8], piece: u64, bytes: &[u8]) -> CountAnswer
    ensures { (result ≡ count_answer (piece_answer store.old piece bytes.now)) × (store.new ≡ piece_after store.old piece bytes.now) }
{
    kombudeva::kd_judge_piece(store, piece, bytes)
}

#[unsafe(no_mangle)]
pub extern "C" fn kd_judge_hybrid_piece(
    store: &mut [u8],
    piece: u64,
    bytes: &[u8],
    v1: Sha1Hash,
    zeros: u64,
) -> CountAnswer
    ensures { (result ≡ count_answer (Both.hybrid_answer store.old piece bytes.now v1.bytes zeros)) × (store.new ≡ Both.hybrid_after store.old piece bytes.now v1.bytes zeros) }
{
    kombudeva::kd_judge_hybrid_piece(store, piece, bytes, v1, zeros)
}

#[unsafe(no_mangle)]
pub extern "C" fn kd_piece_hashes(
    store: &[u8],
    piece: u64,
    bytes: &[u8],
    out: &mut [u8],
) -> CountAnswer
    ensures { (result ≡ count_answer (leaves_answer store.now piece bytes.now out.old)) × (out.new ≡ leaves_after store.now piece bytes.now out.old) }
{
    kombudeva::kd_piece_hashes(store, piece, bytes, out)
}

#[unsafe(no_mangle)]
pub extern "C" fn kd_marked(store: &[u8], block: u64) -> CountAnswer
    ensures { result ≡ count_answer (marked_answer store.now block) }
{
    kombudeva::kd_marked(store, block)
}

#[unsafe(no_mangle)]
pub extern "C" fn kd_clear(store: &mut [u8], block: u64) -> CountAnswer
    ensures { (result ≡ count_answer (clear_answer store.old block)) × (store.new ≡ clear_after store.old block) }
{
    kombudeva::kd_clear(store, block)
}

#[unsafe(no_mangle)]
pub extern "C" fn kd_bitfield(store: &[u8], out: &mut [u8]) -> CountAnswer
    ensures { (result ≡ count_answer (field_answer store.now out.old)) × (out.new ≡ field_after store.now out.old) }
{
    kombudeva::kd_bitfield(store, out)
}

#[unsafe(no_mangle)]
pub extern "C" fn kd_next_request(store: &[u8], layer: u64) -> Request
    ensures { result ≡ next_answer store.now layer }
{
    kombudeva::kd_next_request(store, layer)
}

#[unsafe(no_mangle)]
pub extern "C" fn kd_pick_piece(store: &[u8], counts: &[u32]) -> Choice
    ensures { result ≡ pick_answer store.now counts.now }
{
    kombudeva::kd_pick_piece(store, counts)
}

// Whether the store's file begins with an earlier one, of this length and root.
#[unsafe(no_mangle)]
pub extern "C" fn kd_extends(store: &[u8], length: u64, root: Hash, block: &[u8]) -> CountAnswer
    ensures { result ≡ count_answer (extends_answer store.now length root.bytes block.now) }
{
    kombudeva::kd_extends(store, length, root, block)
}

#[unsafe(no_mangle)]
pub extern "C" fn kd_save(store: &[u8], out: &mut [u8]) -> CountAnswer
    ensures { (result ≡ count_answer (save_answer store.now out.old)) × (out.new ≡ save_after store.now out.old) }
{
    kombudeva::kd_save(store, out)
}

#[unsafe(no_mangle)]
pub extern "C" fn kd_load(store: &mut [u8], bytes: &[u8]) -> CountAnswer
    ensures { (result ≡ count_answer (load_answer store.old bytes.now)) × (store.new ≡ load_after store.old bytes.now) }
{
    kombudeva::kd_load(store, bytes)
}

#[unsafe(no_mangle)]
pub extern "C" fn kd_repair(store: &mut [u8], bytes: &[u8]) -> Repaired
    ensures { (result ≡ repair_answer store.old bytes.now) × (store.new ≡ repair_after store.old bytes.now) }
{
    kombudeva::kd_repair(store, bytes)
}

#[unsafe(no_mangle)]
pub extern "C" fn kd_torrent_read(torrent: &[u8]) -> TorrentAnswer
    ensures { result ≡ torrent_answer (read_of torrent.now) }
{
    kombudeva::kd_torrent_read(torrent)
}

#[unsafe(no_mangle)]
pub extern "C" fn kd_torrent_file(torrent: &[u8], file: u64) -> FileAnswer
    ensures { result ≡ file_answer (file_read torrent.now file) }
{
    kombudeva::kd_torrent_file(torrent, file)
}

#[unsafe(no_mangle)]
pub extern "C" fn kd_torrent_path(torrent: &[u8], file: u64, element: u64) -> PartAnswer
    ensures { result ≡ part_answer (path_read torrent.now file element) }
{
    kombudeva::kd_torrent_path(torrent, file, element)
}

#[unsafe(no_mangle)]
pub extern "C" fn kd_torrent_list(torrent: &[u8], out: &mut [u8]) -> CountAnswer
    ensures { (result ≡ count_answer (list_answer torrent.now out.old)) × (out.new ≡ list_after torrent.now out.old) }
{
    kombudeva::kd_torrent_list(torrent, out)
}

#[unsafe(no_mangle)]
pub extern "C" fn kd_torrent_info(torrent: &[u8]) -> PartAnswer
    ensures { result ≡ part_answer (info_read torrent.now) }
{
    kombudeva::kd_torrent_info(torrent)
}

#[unsafe(no_mangle)]
pub extern "C" fn kd_torrent_name(torrent: &[u8]) -> PartAnswer
    ensures { result ≡ part_answer (name_read torrent.now) }
{
    kombudeva::kd_torrent_name(torrent)
}

#[unsafe(no_mangle)]
pub extern "C" fn kd_torrent_hybrid(torrent: &[u8]) -> HybridAnswer
    ensures { result ≡ hybrid_answer (hybrid_of torrent.now) }
{
    kombudeva::kd_torrent_hybrid(torrent)
}

#[unsafe(no_mangle)]
pub extern "C" fn kd_torrent_v1_piece(torrent: &[u8], file: u64, piece: u64) -> V1PieceAnswer
    ensures { result ≡ v1_piece_answer (v1_piece_of torrent.now file piece) }
{
    kombudeva::kd_torrent_v1_piece(torrent, file, piece)
}

#[unsafe(no_mangle)]
pub extern "C" fn kd_torrent_v1_pieces(torrent: &[u8], file: u64) -> V1PartAnswer
    ensures { result ≡ v1_part_answer (v1_pieces_of torrent.now file) }
{
    kombudeva::kd_torrent_v1_pieces(torrent, file)
}

#[unsafe(no_mangle)]
pub extern "C" fn kd_place(list: &[u8], piece_length: u64, piece: u64) -> Placed
    ensures { result ≡ place_answer list.now piece_length piece }
{
    kombudeva::kd_place(list, piece_length, piece)
}

#[unsafe(no_mangle)]
pub extern "C" fn kd_first_piece(list: &[u8], piece_length: u64, file: u64) -> CountAnswer
    ensures { result ≡ count_answer (first_answer list.now piece_length file) }
{
    kombudeva::kd_first_piece(list, piece_length, file)
}

#[unsafe(no_mangle)]
pub extern "C" fn kd_torrent_write(
    list: &[u8],
    text: &[u8],
    piece_length: u64,
    name: &[u8],
    out: &mut [u8],
) -> CountAnswer
    ensures { (result ≡ count_answer (write_answer list.now text.now piece_length name.now out.old)) × (out.new ≡ write_after list.now text.now piece_length name.now out.old) }
{
    kombudeva::kd_torrent_write(list, text, piece_length, name, out)
}

#[unsafe(no_mangle)]
pub extern "C" fn kd_stream_begin() -> Stream
    ensures { result ≡ between }
{
    kombudeva::kd_stream_begin()
}

#[unsafe(no_mangle)]
pub extern "C" fn kd_stream_hear(standing: Stream, bytes: &[u8], room: &mut [u8]) -> Heard
    ensures { (result ≡ hear_answer standing room.old bytes.now) × (room.new ≡ hear_room standing room.old bytes.now) }
{
    kombudeva::kd_stream_hear(standing, bytes, room)
}

#[unsafe(no_mangle)]
pub extern "C" fn kd_frame(message: &[u8], out: &mut [u8]) -> CountAnswer
    ensures { (result ≡ count_answer (frame_answer message.now out.old)) × (out.new ≡ frame_after message.now out.old) }
{
    kombudeva::kd_frame(message, out)
}
