// How far two strings of bytes are the same, looked at four bytes at a time.
ghost use Rattle.std.specs.Prelude.{◌≡◌, true, ◌+◌, ◌≤◌, length};
ghost use Rattle.bencode.specs.Front.{Alike, FourAlike, Front};

use octets::wide;

// Whether four bytes at i are the same. Written out, so that they are read as one word.
fn four_alike(one: &[u8], other: &[u8], i: usize) -> bool
    requires { (i + 4 ≤ length one.now) × (i + 4 ≤ length other.now) }
    ensures { result ≡ true → FourAlike one.now other.now i }
{
    let a = wide(one[i]);
    let b = wide(one[i + 1]);
    let c = wide(one[i + 2]);
    let d = wide(one[i + 3]);
    let e = wide(other[i]);
    let f = wide(other[i + 1]);
    let g = wide(other[i + 2]);
    let h = wide(other[i + 3]);
    a * 16777216 + b * 65536 + c * 256 + d == e * 16777216 + f * 65536 + g * 256 + h
}

// Up to where the first n bytes are the same by whole words.
fn words_alike(one: &[u8], other: &[u8], n: usize) -> usize
    requires { (n ≤ length one.now) × (n ≤ length other.now) }
    ensures { (result ≤ n) × Alike one.now other.now result }
{
    for k in 0..n / 4 {
        if !four_alike(one, other, 4 * k) {
            return 4 * k;
        }
    }
    n / 4 * 4
}

// How many bytes from the first on are the same.
pub fn front(one: &[u8], other: &[u8]) -> usize
    ensures { Front one.now other.now result }
{
    let n = one.len().min(other.len());
    let first = words_alike(one, other, n);
    for i in first..n {
        if one[i] != other[i] {
            return i;
        }
    }
    n
}
