// A torrent's file tree (BEP 52): what a file's dictionary says, what stands next in a directory, and all files counted.
#![tactic(auto)]

pub mod count;
pub mod element;
pub mod file;
pub mod path;
pub mod token;
