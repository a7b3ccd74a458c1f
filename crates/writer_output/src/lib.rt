// The bytes of a torrent, put into the output part behind part. Each function gives the place behind what it puts, also where there is no
// room: nothing is written then. So the same functions measure a torrent and write it.
#![tactic(auto)]

pub mod file;
pub mod layer;
pub mod path;
pub mod plain;
pub mod whole;
