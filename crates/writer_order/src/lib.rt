// A list's files in two orders, by path and by root, and the number of its content.
#![tactic(auto)]

pub mod clash;
pub mod compare;
pub mod items;
pub mod meet;
pub mod number;
pub mod places;
