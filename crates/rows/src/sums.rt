// The rows of a box, one for each number of a range.
ghost use Rattle.std.specs.Prelude.{◌≡◌, ◌*◌, ◌≤◌, ◌<◌, length};
ghost use Rattle.corners.specs.Boxes.{Two};
ghost use Rattle.inequalities.specs.Flat.{exprs_in};
ghost use Rattle.valuations.specs.Valuations.{count, widths};

use crate::lines;
use expr::Ranges;

// How many valuations of a box meet the first n inequalities, one row for each number of the range at w, if no range but those at w and t
// has several numbers and none is empty.
fn along(b: Ranges, flat: &[i32], n: usize, w: usize, t: usize) -> usize
    requires w_bound { ((w < 4) × ((t < 4) × (w ≡ t → ⊥))) × (Two w t b.list × (0 < widths b.list)) }
    requires few { (n ≤ 25) × (5 * n ≤ length flat.now) }
    ensures value { result ≡ count b.list (exprs_in flat.now n) }
    ensures small { result ≤ 4294967296 }
{
    let mut v = corners::corner(b);
    v.numbers[t] = 0;
    v.numbers[w] = 0;
    let l = lines::all_put_in(v, flat, n);
    let range = b.list[w];
    let s = b.list[t];
    let m = widths::width(range);
    let mut total = 0;
    for i in 0..m {
        let p = widths::point(range, i);
        total += widths::width(lines::row(&l.numbers, flat, n, w, t, p.low, s));
    }
    total
}

// How many valuations of a box meet the first n inequalities, if no range but those at w and t has several numbers and none is empty.
pub fn count_rows(b: Ranges, flat: &[i32], n: usize, w: usize, t: usize) -> usize
    requires w_bound { ((w < 4) × ((t < 4) × (w ≡ t → ⊥))) × (Two w t b.list × (0 < widths b.list)) }
    requires few { (n ≤ 25) × (5 * n ≤ length flat.now) }
    ensures value { result ≡ count b.list (exprs_in flat.now n) }
    ensures small { result ≤ 4294967296 }
{
    let x = b.list[w];
    let y = b.list[t];
    if widths::width(y) < widths::width(x) {
        return along(b, flat, n, t, w);
    }
    along(b, flat, n, w, t)
}
