// A path in the text: its elements in a row, each a size of four bytes and so many bytes.
ghost use Rattle.std.specs.Prelude.{◌≡◌, length};
ghost use Rattle.writer_lists.specs.Lists.{elements_fit};

// Whether the bytes are exactly such elements.
pub fn elements_fit(path: &[u8]) -> bool
    ensures { result ≡ elements_fit (length path.now) path.now }
{
    let n = path.len();
    let mut at = 0;
    // A `while`: the position moves by what was read there.
    while at < n {
        let left = n - at;
        if left < 4 {
            return false;
        }
        let size = octets::number_at(path, at, 4);
        if left - 4 < size {
            return false;
        }
        at = at + 4 + size;
    }
    true
}
