// The facts that a store names: which file it is about. A host asks for them after it has loaded a store or found one on its disk.
#![tactic(auto)]

ghost use Rattle.std.specs.Prelude.{◌≡◌};
ghost use Rattle.facts.specs.Facts.{as_read, facts_answer};

use numbers::Refused;
use store::{facts_root, file_length, is_usable, piece_length_of};

// The file's length and the piece length in bytes, and the pieces root.
#[derive(Clone, Copy)]
pub struct FileFacts {
    pub length: usize,
    pub plen: usize,
    pub root: [u8; 32],
}

// The facts of a usable store; 9 where it is not usable.
pub fn read_facts(store: &[u8]) -> Result<FileFacts, Refused>
    ensures { as_read result ≡ facts_answer store.now }
{
    if !is_usable(store) {
        return Err(Refused::Unusable);
    }
    let length = file_length(store);
    let plen = piece_length_of(store);
    let root = facts_root(store);
    Ok(FileFacts { length, plen, root })
}
