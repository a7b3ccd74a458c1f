// SHA-256 of eight messages of one length, side by side.
#![tactic(auto)]

pub mod block;
pub mod hashes;
pub mod runs;
