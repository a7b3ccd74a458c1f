// How large things may be. Each limit stands here once for the code, and once in specs/Limits for the contracts.
#![tactic(auto)]

// The longest file, in bytes.
pub const LONGEST_FILE: usize = 17179869184;

// The height of its tree.
pub const TALLEST_TREE: usize = 20;

// The longest base run of a message, in hashes.
pub const LONGEST_RUN: usize = 8192;

// The largest torrent, in bytes.
pub const LARGEST_TORRENT: usize = 1048576;

// The longest string that SHA-1 and SHA-256 have a hash for, in bytes: one of 2^64 bits has none (FIPS 180-4).
pub const LONGEST_HASHED: usize = 0x1fff_ffff_ffff_ffff;

// How deeply a torrent may be nested, the outer dictionary being the first level.
pub const LEVELS: usize = 32;

// The longest frame of a neighbour's stream, in bytes, its prefix not counted.
pub const LONGEST_FRAME: usize = 300000;
