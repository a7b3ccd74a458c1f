// A list of files in two lent memories: records of 56 bytes, and the text that they point into.
#![tactic(auto)]

pub mod elements;
pub mod form;
pub mod paths;
pub mod word;
