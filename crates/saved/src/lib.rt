// A store saved, loaded and repaired.
#![tactic(auto)]

pub mod chain;
pub mod form;
pub mod load;
pub mod repair;
pub mod save;
