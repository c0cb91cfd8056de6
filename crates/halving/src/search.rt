// The search: what the inequalities leave of a box is tried at its lowest corner; then its widest range is halved.
ghost use Rattle.expr.specs.Records.{range_list};
ghost use Rattle.inequalities.specs.Flat.{exprs_in};
ghost use Rattle.halving.specs.Halved.{Found};

use crate::widest::widest;
use expr::{Ranges, Valuation};

// Whether some valuation of the box meets the first n inequalities, and one that does.
fn some_from(b: Ranges, flat: &[i32], n: usize) -> Option<Valuation>
    ensures { Found b.list (exprs_in flat.now n) result }
{
    let c = systems::narrowed(b, flat, n);
    let v = corners::corner(c);
    if !corners::inside(c, v) {
        return None;
    }
    if systems::meets(v, flat, n) {
        return Some(v);
    }
    let w = widest(c);
    let range = c.list[w];
    let m = widths::width(range) / 2;
    if m == 0 {
        return None;
    }
    let mut d = c;
    d.list[w] = widths::lower(range, m);
    let s = some_from(d, flat, n);
    if s.is_some() {
        return s;
    }
    let mut e = c;
    e.list[w] = widths::upper(range, m);
    some_from(e, flat, n)
}

// Whether some valuation of b meets the first n inequalities of the flat list, and one that does.
pub fn some(b: Ranges, flat: &[i32], n: usize) -> Option<Valuation>
    ensures { Found (range_list b) (exprs_in flat.now n) result }
{
    some_from(b, flat, n.min(flat.len()))
}
