//! The order of texts, by their bytes, which are looked at eight at a time.

ghost use Rattle.std.specs.Prelude.{◌≡◌};
ghost use Rattle.value_core.specs.TextOrder.{text_cmp};

use std::cmp::Ordering;

/// The order of two texts.
pub fn order(first: &[u8], second: &[u8]) -> Ordering
    ensures { result ≡ text_cmp first.now second.now }
{
    let mut x = first;
    let mut y = second;
    'eights: while let [a, b, c, d, e, f, g, h, xs @ ..] = x {
        let [i, j, k, l, m, n, o, p, ys @ ..] = y else {
            return x.cmp(y);
        };
        let left = u64::from_be_bytes([*a, *b, *c, *d, *e, *f, *g, *h]);
        let right = u64::from_be_bytes([*i, *j, *k, *l, *m, *n, *o, *p]);
        if left != right {
            return left.cmp(&right);
        }
        x = xs;
        y = ys;
    }
    x.cmp(y)
}
