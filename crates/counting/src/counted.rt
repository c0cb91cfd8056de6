// How many valuations of a box meet inequalities: what they leave of it is gone over number by number along the narrowest range that has
// several numbers.
ghost use Rattle.std.specs.Prelude.{◌≡◌, true, min, ◌≤◌};
ghost use Rattle.expr.specs.Records.{range_list};
ghost use Rattle.corners.specs.Boxes.{Points, Two};
ghost use Rattle.inequalities.specs.Flat.{exprs_in};
ghost use Rattle.valuations.specs.Valuations.{count};

use expr::Ranges;

// How many valuations of a box meet the first n inequalities, if none of its ranges has several numbers.
fn single(b: Ranges, flat: &[i32], n: usize) -> usize
    requires { Points 4 b.list }
    ensures { result ≡ min (count b.list (exprs_in flat.now n)) 18446744073709551615 }
{
    if systems::meets(corners::corner(b), flat, n) {
        return widths::volume(b);
    }
    0
}

// Whether a box may be taken row by row under k inequalities: no range but those at w and t has several numbers.
fn by_rows(b: Ranges, k: usize, w: usize, t: usize) -> bool
    ensures { result ≡ true → (k ≤ 25) × Two w t b.list }
{
    if 25 < k {
        return false;
    }
    picking::two(b, w, t)
}

// How many valuations of the box meet the inequalities. What they leave of it is gone over number by number along the range that has the
// fewest, of those that have several; there only those inequalities are asked that do not hold throughout what is left of the box, where
// there is room for them.
fn count_from(b: Ranges, flat: &[i32], n: usize) -> usize
    ensures { result ≡ min (count b.list (exprs_in flat.now n)) 18446744073709551615 }
{
    let c = systems::narrowed(b, flat, n);
    let v = widths::volume(c);
    if v == 0 {
        return 0;
    }
    let mut kept = [0i32; 125];
    let k = sifting::sifted(&mut kept, c, flat, n);
    if k == 0 {
        return v;
    }
    let Some(w) = picking::narrowest(c) else {
        return single(c, flat, n);
    };
    let t = picking::other(c, w);
    if by_rows(c, k, w, t) {
        return rows::count_rows(c, &kept, k, w, t);
    }
    let range = c.list[w];
    let m = widths::width(range);
    let mut total: usize = 0;
    for i in 0..m {
        let mut d = c;
        d.list[w] = widths::point(range, i);
        let more = if 25 < k {
            count_from(d, flat, n)
        } else {
            count_from(d, &kept, k)
        };
        total = total.saturating_add(more);
    }
    total
}

// How many valuations of b meet them; four full ranges of i16 hold one valuation more than a usize counts, hence the cap.
pub fn count(b: Ranges, flat: &[i32], n: usize) -> usize
    ensures { result ≡ min (count (range_list b) (exprs_in flat.now n)) 18446744073709551615 }
{
    let m = n.min(flat.len());
    if systems::opposed(flat, m, 0) {
        return 0;
    }
    count_from(b, flat, m)
}
