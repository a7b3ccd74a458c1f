// Strings of 32 bytes at positions of the bytes: the positions sorted by them, each string once, and one found by halving.
#![tactic(auto)]

mod compare;
pub mod distinct;
pub mod halving;
pub mod sort;

pub use compare::{ByString, index};
