// A hashes message taken, and an incoming reject. (A request is served in `serve`.)
#![tactic(auto)]

pub mod padded;
pub mod take;
