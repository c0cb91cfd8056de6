// What inequalities leave of a box of ranges, and whether a valuation meets them.
ghost use Rattle.std.specs.Prelude.{◌≡◌, ◌<◌, ◌≤◌, IfSome};
ghost use Rattle.inequalities.specs.Flat.{exprs_in};
ghost use Rattle.valuations.specs.Valuations.{satisfies};
ghost use Rattle.systems.specs.Boxes.{Narrows};

use expr::{Ranges, Valuation};

// Whether a valuation meets the first n inequalities.
pub fn meets(v: Valuation, flat: &[i32], n: usize) -> bool
    ensures { result ≡ satisfies (exprs_in flat.now n) v.numbers }
{
    for k in 0..n {
        if inequalities::value_at(v, inequalities::inequality(flat, k)) < 0 {
            return false;
        }
    }
    true
}

// What the first n inequalities leave of the box, no solution lost: the last is tried first, and a box that an inequality emptied is not
// cut again.
pub fn narrowed(b: Ranges, flat: &[i32], n: usize) -> Ranges
    ensures { Narrows (exprs_in flat.now n) b.list result.list }
{
    let mut c = b;
    for k in (0..n.min(flat.len())).rev() {
        c = narrowing::cut(c, inequalities::inequality(flat, k));
        let r = c.list[0];
        if r.high < r.low {
            return c;
        }
    }
    c
}

// The first of n inequalities, from `start` on, that fails at v.
fn failing(v: Valuation, flat: &[i32], n: usize, start: usize) -> Option<usize>
    ensures { IfSome result (λ k. (start ≤ k) × (k < n)) }
{
    (start..n).find(|k| inequalities::value_at(v, inequalities::inequality(flat, *k)) < 0)
}

// What the first n inequalities leave of the box where only those cut it, from below, that fail at its lowest corner, the first being
// tried first; no solution is lost, and a box that an inequality emptied is not cut again.
pub fn trimmed(b: Ranges, flat: &[i32], n: usize) -> Ranges
    ensures { Narrows (exprs_in flat.now n) b.list result.list }
{
    let mut c = b;
    let mut k = 0;
    // No `for`: the next one that fails is sought in the box that this one has cut.
    while let Some(j) = failing(corners::corner(c), flat, n, k) {
        c = narrowing::raise(c, inequalities::inequality(flat, j));
        let r = c.list[0];
        if r.high < r.low {
            return c;
        }
        k = j + 1;
    }
    c
}
