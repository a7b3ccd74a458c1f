// The form of a list: whole records, each with a length below 2^63, its two parts within the text and a path of exactly elements.
ghost use Rattle.std.specs.Prelude.{◌≡◌, ◌+◌, ◌≤◌, length};
ghost use Rattle.writer_lists.specs.Lists.{part_fits, form_at, list_form};

// The bytes of a record.
pub const RECORD: usize = 56;

// Lengths are below this.
const LENGTHS: usize = 9223372036854775808;

// Whether the part of the text that is named at `at` ends within it.
fn part_fits(list: &[u8], text: &[u8], at: usize) -> bool
    requires { at + 8 ≤ length list.now }
    ensures { result ≡ part_fits list.now text.now at }
{
    let start = octets::number_at(list, at, 4);
    let size = octets::number_at(list, at + 4, 4);
    start + size <= text.len()
}

// Whether the record at `at` has its form.
fn form_at(list: &[u8], text: &[u8], at: usize) -> bool
    requires { at + 56 ≤ length list.now }
    ensures { result ≡ form_at list.now text.now at }
{
    let n = octets::number_at(list, at, 8);
    if LENGTHS <= n {
        return false;
    }
    if !part_fits(list, text, at + 40) {
        return false;
    }
    if !part_fits(list, text, at + 48) {
        return false;
    }
    let start = octets::number_at(list, at + 48, 4);
    let size = octets::number_at(list, at + 48 + 4, 4);
    crate::elements::elements_fit(&text[start..start + size])
}

// Whether a list has its form.
pub fn list_form(list: &[u8], text: &[u8]) -> bool
    ensures { result ≡ list_form list.now text.now }
{
    if list.len() % RECORD != 0 {
        return false;
    }
    let n = list.len() / RECORD;
    for i in 0..n {
        if !form_at(list, text, RECORD * i) {
            return false;
        }
    }
    true
}
