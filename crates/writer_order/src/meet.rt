// Whether files have one path, or one of them stands in a directory that another is: in tree order two neighbours tell.
ghost use Rattle.std.specs.Prelude.{◌≡◌, map};
ghost use Rattle.writer_lists.specs.Lists.{item_at};
ghost use Rattle.writer_order.specs.Order.{AllInForm};
ghost use Rattle.writer_order.specs.Neighbours.{neighbours, leads};

use sorting::index;

// Whether one of the files at the positions leads to the next.
pub fn meets(list: &[u8], text: &[u8], at: &[u32]) -> bool
    requires { AllInForm list.now text.now at.now }
    ensures { result ≡ neighbours leads (map (item_at list.now text.now) at.now) }
{
    for i in 1..at.len() {
        let p = index(at[i - 1]);
        let q = index(at[i]);
        if writer_lists::paths::leads(list, text, p, q) {
            return true;
        }
    }
    false
}
