// Bytes in slices. A hash is a value of 32 bytes: read from and written to a place, and compared whole.
#![tactic(auto)]

ghost use Rattle.std.specs.Prelude.{◌≡◌, ◌+◌, ◌^◌, ◌≤◌, ◌<◌, length};
ghost use Rattle.octets.specs.Octets as O;

// The N bytes at `at`: 32 of a SHA-256 hash, 20 of a SHA-1 hash. By a loop: of `first_chunk` the test in `unwrap` stays in the code.
pub fn hash_at<const N: usize>(bytes: &[u8], at: usize) -> [u8; N]
    requires { at + N ≤ length bytes.now }
    ensures { result ≡ O.cut bytes.now at N }
{
    let mut hash = [0u8; N];
    for i in 0..N {
        hash[i] = bytes[at + i];
    }
    hash
}

// Writes the hash at `at`.
pub fn put_hash<const N: usize>(bytes: &mut [u8], at: usize, hash: [u8; N])
    requires { at + N ≤ length bytes.old }
    ensures { bytes.new ≡ O.pasted bytes.old at hash.entry }
{
    for i in 0..N {
        bytes[at + i] = hash[i];
    }
}

// Whether two hashes are the same, all bytes compared. The one place where hashes are compared.
pub fn same<const N: usize>(one: [u8; N], other: [u8; N]) -> bool
    ensures { result ≡ O.same one.entry other.entry }
{
    one == other
}

// A byte as a number.
pub fn wide(byte: u8) -> usize
    ensures { (result ≡ byte) × (result < 256) }
{
    usize::from(byte)
}

// The number that `size` bytes at `at` write, the most significant first.
pub fn number_at(bytes: &[u8], at: usize, size: usize) -> usize
    requires { (at + size ≤ length bytes.now) × (size ≤ 8) }
    ensures { (result ≡ O.number_at bytes.now at size) × (result < 256 ^ size) }
{
    let mut x = 0;
    for i in 0..size {
        let b = wide(bytes[at + i]);
        x = x * 256 + b;
    }
    x
}

// Writes `number` as `size` bytes at `at`, the most significant first.
pub fn put_number(bytes: &mut [u8], at: usize, size: usize, number: usize)
    requires { (at + size ≤ length bytes.old) × (size ≤ 8) }
    ensures { bytes.new ≡ O.pasted bytes.old at (O.be size number) }
{
    let mut rest = number;
    for i in (0..size).rev() {
        bytes[at + i] = (rest % 256) as u8;
        rest /= 256;
    }
}

// The first `count` bytes become zero.
pub fn clear(bytes: &mut [u8], count: usize)
    requires { count ≤ length bytes.old }
    ensures { bytes.new ≡ O.zeroed bytes.old count }
{
    bytes[..count].fill(0);
}
