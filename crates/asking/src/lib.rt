// What to ask for next, and which piece to fetch. The store is only looked at.
#![tactic(auto)]

pub mod next;
pub mod pick;
