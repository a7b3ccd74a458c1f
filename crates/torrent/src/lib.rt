// A torrent read (BEP 52): its number, info hash, files and their paths, one by one or all in one list.
#![tactic(auto)]

pub mod both;
pub mod check;
pub mod one;
pub mod read;
