// 26 and 28 of files that stand by their roots, in runs of one root: files that are not empty have one length and one layer in a run, and
// the first one's layer gives the root. So each root's layer is hashed once.
ghost use Rattle.std.specs.Prelude.{◌≡◌, Bool, true, false, map, ℕ, ◌+◌, ◌≤◌, length, ltb};
ghost use Rattle.octets.specs.Octets as O;
ghost use Rattle.octets.specs.Octets.{number_at};
ghost use Rattle.tree.specs.Geometry as G;
ghost use Rattle.tree.specs.Geometry.{block_count, is_piece_length, piece_layer, has_layer};
ghost use Rattle.tree.specs.Values.{layer_root};
ghost use Rattle.writer_meaning.specs.Content.{Item};
ghost use Rattle.writer_meaning.specs.Number.{gives_other};
ghost use Rattle.writer_lists.specs.Lists.{item_at};
ghost use Rattle.writer_order.specs.Order.{InForm, AllInForm};
ghost use Rattle.writer_order.specs.Neighbours.{agree, wrong_next, clash, clash_by};
ghost use Rattle.writer_order.specs.StepsLaws.{Seen, file_of};

use bencode::order::same;
use octets::number_at;
use sorting::index;
use tree::geometry::{has_layer, piece_layer};
use tree::values::pad_value;

// Whether the layer of a file of n bytes gives its root.
fn gives_root(layer: &[u8], plen: usize, n: usize, root: &[u8]) -> bool
    requires { (is_piece_length plen ≡ true) × (has_layer n plen ≡ true) × (length root.now ≡ 32) }
    ensures { result ≡ O.same (layer_root layer.now (piece_layer plen) (G.height (block_count n))) root.now }
{
    let pad = pad_value(piece_layer(plen));
    heaps::gives_root(layer, pad, plen, n, root)
}

// Whether the file of the record at p is not empty.
fn is_full(list: &[u8], p: usize) -> bool
    requires { p + 56 ≤ length list.now }
    ensures { result ≡ ltb 0 (number_at list.now p 8) }
{
    let n = number_at(list, p, 8);
    0 < n
}

// Whether the layer of the file of the record at p does not give its root.
fn gives_other(list: &[u8], text: &[u8], plen: usize, p: usize) -> bool
    requires { InForm list.now text.now p × (is_piece_length plen ≡ true) }
    ensures { result ≡ gives_other plen (item_at list.now text.now p) }
{
    let n = number_at(list, p, 8);
    if !has_layer(n, plen) {
        return false;
    }
    let s = number_at(list, p + 40, 4);
    let m = number_at(list, p + 40 + 4, 4);
    if gives_root(&text[s..s + m], plen, n, &list[p + 8..p + 40]) {
        return false;
    }
    true
}

// Whether the files of the records at p and q have one layer. Layers that are one part of the text are not compared.
fn one_layer(list: &[u8], text: &[u8], p: usize, q: usize) -> bool
    requires { InForm list.now text.now p × InForm list.now text.now q }
    ensures { result ≡ agree true (item_at list.now text.now p)
        (item_at list.now text.now q) }
{
    let s = number_at(list, p + 40, 4);
    let m = number_at(list, p + 40 + 4, 4);
    let t = number_at(list, q + 40, 4);
    let n = number_at(list, q + 40 + 4, 4);
    if s == t && m == n {
        return true;
    }
    same(&text[s..s + m], &text[t..t + n])
}

// Whether they have one length.
fn one_length(list: &[u8], text: &[u8], p: usize, q: usize) -> bool
    requires { InForm list.now text.now p × InForm list.now text.now q }
    ensures { result ≡ agree false (item_at list.now text.now p)
        (item_at list.now text.now q) }
{
    number_at(list, p, 8) == number_at(list, q, 8)
}

// Whether something is wrong at the file of the record at q: beside the last one seen before, if that has its root, or alone.
fn wrong_next<F: Fn(usize) -> bool, G: Fn(usize, usize) -> bool>(
    list: &[u8],
    text: &[u8],
    wrong: &F,
    agrees: &G,
    last: Option<usize>,
    q: usize,
) -> bool
    requires { Seen list.now text.now last × InForm list.now text.now q
        × ((p : ℕ) → InForm list.now text.now p → F.pre wrong.now p)
        × ((p q : ℕ) → InForm list.now text.now p → InForm list.now text.now q → G.pre agrees.now p q) }
    ensures { (alone : Item → Bool) (beside : Item → Item → Bool)
        → ((p : ℕ) (r : Bool) → InForm list.now text.now p → F.post wrong.now p r → r ≡ alone (item_at list.now text.now p))
        → ((p q : ℕ) (r : Bool) → InForm list.now text.now p → InForm list.now text.now q → G.post agrees.now p q r
        → r ≡ beside (item_at list.now text.now p) (item_at list.now text.now q))
        → result ≡ wrong_next alone beside (file_of list.now text.now last) (item_at list.now text.now q) }
{
    let Some(p) = last else {
        return wrong(q);
    };
    if !same(&list[p + 8..p + 40], &list[q + 8..q + 40]) {
        return wrong(q);
    }
    !agrees(p, q)
}

// Whether something is wrong in a run of files with one root: at the first of them by `wrong`, or at two that follow each other by `agrees`,
// which are given the positions of their records.
fn clashes<F: Fn(usize) -> bool, G: Fn(usize, usize) -> bool>(
    list: &[u8],
    text: &[u8],
    at: &[u32],
    wrong: F,
    agrees: G,
) -> bool
    requires { AllInForm list.now text.now at.now
        × ((p : ℕ) → InForm list.now text.now p → F.pre wrong p)
        × ((p q : ℕ) → InForm list.now text.now p → InForm list.now text.now q → G.pre agrees p q) }
    ensures { (alone : Item → Bool) (beside : Item → Item → Bool)
        → ((p : ℕ) (r : Bool) → InForm list.now text.now p → F.post wrong p r → r ≡ alone (item_at list.now text.now p))
        → ((p q : ℕ) (r : Bool) → InForm list.now text.now p → InForm list.now text.now q → G.post agrees p q r
        → r ≡ beside (item_at list.now text.now p) (item_at list.now text.now q))
        → result ≡ clash_by alone beside (map (item_at list.now text.now) at.now) }
{
    let mut last = None;
    for place in at {
        let p = index(*place);
        if is_full(list, p) {
            if wrong_next(list, text, &wrong, &agrees, last, p) {
                return true;
            }
            last = Some(p);
        }
    }
    false
}

// Whether two files with one root at the positions have different lengths.
pub fn lengths_clash(list: &[u8], text: &[u8], at: &[u32]) -> bool
    requires { AllInForm list.now text.now at.now }
    ensures { (plen : ℕ) → result ≡ clash false plen (map (item_at list.now text.now) at.now) }
{
    clashes(
        list,
        text,
        at,
        |_p| false,
        |p, q| one_length(list, text, p, q),
    )
}

// Whether two files with one root at the positions have different layers, or a first one's layer does not give its root.
pub fn layers_clash(list: &[u8], text: &[u8], plen: usize, at: &[u32]) -> bool
    requires { AllInForm list.now text.now at.now × (is_piece_length plen ≡ true) }
    ensures { result ≡ clash true plen (map (item_at list.now text.now) at.now) }
{
    clashes(
        list,
        text,
        at,
        |p| gives_other(list, text, plen, p),
        |p, q| one_layer(list, text, p, q),
    )
}
