// The search: first without a way back, then by parts of the first range that has several numbers. Each step but the parting loses no
// solution, so that every one of them may be left out.
ghost use Rattle.std.specs.Prelude.{◌≡◌, ◌≤◌, IsSome};
ghost use Rattle.expr.specs.Records.{range_list};
ghost use Rattle.corners.specs.Boxes.{Points};
ghost use Rattle.inequalities.specs.Flat.{exprs_in};
ghost use Rattle.first_met.specs.Solutions.{solution_of};
ghost use Rattle.valuations.specs.Valuations.{first};

use expr::{Ranges, Valuation};

// The first valuation of the box that meets the inequalities: what they leave of it is tried at its lowest corner; then the first range
// that has several numbers is parted, a quarter from the others.
fn first_from(b: Ranges, flat: &[i32], n: usize) -> Option<Valuation>
    ensures { result ≡ solution_of (first b.list (exprs_in flat.now n)) }
{
    let c = systems::narrowed(b, flat, n);
    let v = corners::corner(c);
    if !corners::inside(c, v) {
        return None;
    }
    if systems::meets(v, flat, n) {
        return Some(v);
    }
    let w = corners::wide(c, 0)?;
    let range = c.list[w];
    let m = (widths::width(range) + 2) / 4;
    let mut d = c;
    d.list[w] = widths::lower(range, m);
    let s = first_from(d, flat, n);
    if s.is_some() {
        return s;
    }
    let mut e = c;
    e.list[w] = widths::upper(range, m);
    first_from(e, flat, n)
}

// The first valuation of the box that meets the inequalities, where it is found without a way back: the first range that has several
// numbers is put to its lowest and the box trimmed, until the lowest corner meets them. The ranges before `start` have one number at most.
fn low_from(b: Ranges, flat: &[i32], n: usize, start: usize) -> Option<Valuation>
    requires { (start ≤ 4) × Points start b.list }
    ensures { IsSome result → result ≡ solution_of (first b.list (exprs_in flat.now n)) }
{
    let v = corners::corner(b);
    if !corners::inside(b, v) {
        return None;
    }
    if systems::meets(v, flat, n) {
        return Some(v);
    }
    let w = corners::wide(b, start)?;
    let range = b.list[w];
    let mut d = b;
    d.list[w] = widths::point(range, 0);
    low_from(systems::trimmed(d, flat, n), flat, n, w + 1)
}

// The first valuation of b, in lexicographic order, that meets the first n inequalities of the flat list.
pub fn first(b: Ranges, flat: &[i32], n: usize) -> Option<Valuation>
    ensures { result ≡ solution_of (first (range_list b) (exprs_in flat.now n)) }
{
    let m = n.min(flat.len());
    let c = systems::trimmed(b, flat, m);
    if !corners::inside(c, corners::corner(c)) {
        return None;
    }
    let s = low_from(c, flat, m, 0);
    if s.is_some() {
        return s;
    }
    if corners::wide(c, 0).is_some() {
        if systems::opposed(flat, m, 0) {
            return None;
        }
    }
    first_from(c, flat, m)
}
