// The cells of a store: whether a position is held, with which hash, and taking one more.
#![tactic(auto)]

ghost use Rattle.std.specs.Prelude.{◌≡◌, ◌+◌};
ghost use Rattle.cells.specs.Cells.{Room, held_at, hash_at, put};
ghost use Rattle.cells.specs.Entries.{agrees_at, lacks};

// Whether position `node` is held.
pub fn held(store: &[u8], node: usize) -> bool
    requires { Room (node + 1) store.now }
    ensures { result ≡ held_at store.now node }
{
    store[31 + 33 * node] == 1
}

// The hash in position `node`'s cell, held or not.
pub fn hash_of(store: &[u8], node: usize) -> [u8; 32]
    requires { Room (node + 1) store.now }
    ensures { result ≡ hash_at store.now node }
{
    octets::hash_at(store, 32 + 33 * node)
}

// Position `node` becomes held, with `hash`.
pub fn put_at(store: &mut [u8], node: usize, hash: [u8; 32])
    requires { Room (node + 1) store.old }
    ensures { store.new ≡ put store.old node hash }
{
    store[31 + 33 * node] = 1;
    octets::put_hash(store, 32 + 33 * node, hash);
}

// Whether position `node` is not held, or held with `hash`.
#[tactic(auto, unfolding(crate::specs::Entries::agrees_at))]
pub fn agrees_at(store: &[u8], node: usize, hash: [u8; 32]) -> bool
    requires { Room (node + 1) store.now }
    ensures { result ≡ agrees_at store.now node hash }
{
    !held(store, node) || octets::same(hash_of(store, node), hash)
}

// Position `node` becomes held with `hash`; 1 where it was not held before.
pub fn add_at(store: &mut [u8], node: usize, hash: [u8; 32]) -> u64
    requires { Room (node + 1) store.old }
    ensures { (result ≡ lacks store.old node) × (store.new ≡ put store.old node hash) }
{
    let was = held(store, node);
    put_at(store, node, hash);
    u64::from(!was)
}
