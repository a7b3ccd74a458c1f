// The v2 hash tree of a file (BEP 52): what its length fixes, and the values of its positions.
#![tactic(auto)]

pub mod geometry;
pub mod values;
