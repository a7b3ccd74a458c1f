// A number of four bytes.
ghost use Rattle.std.specs.Prelude.{◌≡◌, ◌+◌, ◌^◌, ◌≤◌, ◌<◌, length};
ghost use Rattle.octets.specs.Octets.{number_at};

use octets::wide;

// The number that the four bytes at `at` write, the most significant first. Written out, so that they are read as one word.
pub fn word_at(bytes: &[u8], at: usize) -> usize
    requires { at + 4 ≤ length bytes.now }
    ensures { (result ≡ number_at bytes.now at 4) × (result < 256 ^ 4) }
{
    let a = wide(bytes[at]);
    let b = wide(bytes[at + 1]);
    let c = wide(bytes[at + 2]);
    let d = wide(bytes[at + 3]);
    a * 16777216 + b * 65536 + c * 256 + d
}
