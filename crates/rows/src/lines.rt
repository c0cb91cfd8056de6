// Inequalities with all parameters put in but two.
ghost use Rattle.std.specs.Prelude.{◌≡◌, ℕ, ◌*◌, ◌≤◌, ◌<◌, pos, ◌+ℤ◌, ◌*ℤ◌, length, get_or};
ghost use Rattle.inequalities.specs.Flat.{expr_at};
ghost use Rattle.inequalities.specs.Sizes.{SizedTo};
ghost use Rattle.intervals.specs.Interval.{interval};
ghost use Rattle.rows.specs.Lines.{ValueOf, line_at, row_from};

use expr::{Range, Valuation};

// constant + first · x + second · y ≥ 0.
#[derive(Clone, Copy)]
struct Line {
    constant: i64,
    first: i32,
    second: i32,
}

// The constants of lines, in order.
#[derive(Clone, Copy)]
pub(crate) struct Constants {
    pub numbers: [i64; 25],
}

impl Constants {
    const ZERO: Constants = Constants { numbers: [0; 25] };
}

// The values of the first n inequalities of a flat list.
pub(crate) fn all_put_in(v: Valuation, flat: &[i32], n: usize) -> Constants
    requires { n ≤ 25 }
    ensures { (k : ℕ) → k < n → ValueOf (expr_at flat.now k) v.numbers (get_or result.numbers k (pos 0)) }
{
    let mut l = Constants::ZERO;
    for k in 0..n {
        let x = inequalities::value_at(v, inequalities::inequality(flat, k));
        l.numbers[k] = x;
    }
    l
}

// What a line is at x but for its product with y.
fn at(q: Line, x: i16) -> i64
    requires { SizedTo 4 q.constant }
    ensures value { result ≡ q.constant +ℤ (q.first *ℤ x) }
    ensures small { SizedTo 5 result }
{
    q.constant + inequalities::term(q.first, x)
}

// The part of r where a line holds at x.
fn held(q: Line, x: i16, r: Range) -> Range
    requires { SizedTo 4 q.constant }
    ensures { result ≡ interval r (q.constant +ℤ (q.first *ℤ x)) q.second }
{
    let c = at(q, x);
    let a = q.second;
    if 0 <= c + inequalities::term(a, r.low) {
        if 0 <= c + inequalities::term(a, r.high) {
            return r;
        }
    }
    intervals::interval(r, c, i64::from(a))
}

// The part of s where the first n inequalities of a flat list hold at x, their constants having all but the parameters at w and t put in.
pub(crate) fn row(
    constants: &[i64],
    flat: &[i32],
    n: usize,
    w: usize,
    t: usize,
    x: i16,
    s: Range,
) -> Range
    requires w_bound { (w < 4) × (t < 4) }
    requires long { (n ≤ length constants.now) × (5 * n ≤ length flat.now) }
    requires sized { (k : ℕ) → k < n → SizedTo 4 (get_or constants.now k (pos 0)) }
    ensures { result ≡ row_from (line_at constants.now flat.now w t) 0 n x s }
{
    let mut r = s;
    for k in 0..n {
        let constant = constants[k];
        let first = flat[5 * k + 1 + w];
        let second = flat[5 * k + 1 + t];
        let q = Line {
            constant,
            first,
            second,
        };
        r = held(q, x, r);
    }
    r
}
