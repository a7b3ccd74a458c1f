// The vectors published with FIPS 180-4, run through the boundary: each line is the number and the hash in hex, SHA-256 and then SHA-1.
#![tactic(auto)]

use std::alloc::Global;
use std::io;
use std::io::Write;

const TEXTS: [&[u8]; 4] = [
    b"",
    b"abc",
    b"abcdbcdecdefdefgefghfghighijhijkijkljklmklmnlmnomnopnopq",
    b"abcdefghbcdefghicdefghijdefghijkefghijklfghijklmghijklmnhijklmnoijklmnopjklmnopqklmnopqrlmnopqrsmnopqrstnopqrstu",
];

// The number, and the hash in hex.
fn show<W: Write, const N: usize>(out: &mut W, number: u32, hash: [u8; N]) -> io::Result<()> {
    write!(out, "{number} ")?;
    for byte in hash {
        write!(out, "{byte:02x}")?;
    }
    writeln!(out)
}

fn show_sha256<W: Write>(out: &mut W, text: &[u8]) -> io::Result<()> {
    let answer = kombudeva::kd_sha256(text);
    show(out, answer.number, answer.hash.bytes)
}

fn show_sha1<W: Write>(out: &mut W, text: &[u8]) -> io::Result<()> {
    let answer = kombudeva::kd_sha1(text);
    show(out, answer.number, answer.hash)
}

// A million times the byte a.
fn show_million<W: Write>(out: &mut W, alloc: Global) -> io::Result<()> {
    let million = vec![in alloc; b'a'; 1_000_000]?;
    show_sha256(out, &million)?;
    show_sha1(out, &million)
}

fn main(rt: HostRuntime) -> io::Result<()> {
    let mut out = rt.stdout();
    for text in TEXTS {
        show_sha256(&mut out, text)?;
    }
    for text in TEXTS {
        show_sha1(&mut out, text)?;
    }
    show_million(&mut out, rt.alloc())
}
