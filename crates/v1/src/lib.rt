// The v1 half of a hybrid torrent, for hosts: whether a torrent is one, its v1 info hash, and the v1 hashes of a file's pieces.
#![tactic(auto)]

pub mod place;
pub mod read;
