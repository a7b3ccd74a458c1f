// Strict bencoding (BEP 3), read from any bytes: the walk over a whole torrent, and its values as parts of its bytes.
#![tactic(auto)]

pub mod decimal;
pub mod front;
pub mod order;
pub mod part;
pub mod parts;
pub mod scalar;
pub mod walk;
