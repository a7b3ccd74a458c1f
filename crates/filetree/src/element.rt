// A path element, of a file or a directory: what a key of the file tree must be, and what a path that is written must have.
ghost use Rattle.std.specs.Prelude.{◌≡◌, ◌&&◌, ◌||◌, ◌+◌, ◌≤◌, length, eqb};
ghost use Rattle.octets.specs.Octets.{cut, same};
ghost use Rattle.meaning.specs.Torrent.{without, dot, dots, slash, element_right};

// Whether no path element may have this byte: `/` and zero.
fn forbidden(c: u8) -> bool
    ensures { result ≡ eqb c slash || eqb c 0 }
{
    if c == b'/' {
        return true;
    }
    c == 0
}

// Whether none of the `size` bytes from `start` on is forbidden.
fn bytes_right(bytes: &[u8], start: usize, size: usize) -> bool
    requires { start + size ≤ length bytes.now }
    ensures { result ≡ without slash (cut bytes.now start size) && without 0 (cut bytes.now start size) }
{
    for i in 0..size {
        if forbidden(bytes[start + i]) {
            return false;
        }
    }
    true
}

// Whether they are `.` or `..`, which lead to the folder itself and out of it.
fn only_dots(bytes: &[u8], start: usize, size: usize) -> bool
    requires { start + size ≤ length bytes.now }
    ensures { result ≡ same (cut bytes.now start size) dot || same (cut bytes.now start size) dots }
{
    if size == 1 {
        return bytes[start] == b'.';
    }
    if size != 2 {
        return false;
    }
    let first = bytes[start];
    let second = bytes[start + 1];
    if first != b'.' {
        return false;
    }
    second == b'.'
}

// Whether the `size` bytes from `start` on may be a path element. The one test of it: for keys that are read and paths that are written.
pub fn element_right(bytes: &[u8], start: usize, size: usize) -> bool
    requires { start + size ≤ length bytes.now }
    ensures { result ≡ element_right (cut bytes.now start size) }
{
    if size == 0 {
        return false;
    }
    if only_dots(bytes, start, size) {
        return false;
    }
    bytes_right(bytes, start, size)
}
