// The most that an inequality can be in a box of ranges, and the box that it leaves.
ghost use Rattle.std.specs.Prelude.{◌≡◌, ℤ};
ghost use Rattle.expr.specs.Records.{affine};
ghost use Rattle.intervals.specs.Interval.{interval};
ghost use Rattle.narrowing.specs.Best.{best, best_of, end_of};
ghost use Rattle.inequalities.specs.Sizes.{Sized, SizedTo};
ghost use Rattle.narrowing.specs.Cut.{Cut, Part};

use expr::{Expr, PARAMETERS, Range, Ranges};

// A box without valuations.
const NOWHERE: Ranges = Ranges {
    list: [Range { low: 1, high: 0 }; PARAMETERS],
};

// The end of r at which coefficient a times it is the most.
fn end(a: i32, r: Range) -> i16
    ensures { result ≡ end_of a r }
{
    if 0 <= a {
        return r.high;
    }
    r.low
}

// The most that coefficient a times a number of r can be.
fn most(a: i32, r: Range) -> i64
    ensures value { result ≡ best a r }
    ensures small { Sized result }
{
    inequalities::term(a, end(a, r))
}

// The most that e can be in the box.
pub fn best(b: Ranges, e: Expr) -> i64
    ensures value { result ≡ best_of (affine e) b.list }
    ensures small { SizedTo 4 result }
{
    let mut sum = i64::from(e.constant);
    for i in 0..PARAMETERS {
        sum += most(e.coefs[i], b.list[i]);
    }
    sum
}

// The part of r where an inequality that is at most s in the box can hold, a being the coefficient of r's parameter; all of r where the
// inequality holds throughout, or r has one number at most.
fn part(a: i32, s: i64, r: Range) -> Range
    requires { SizedTo 4 s }
    ensures { Part a s r result }
{
    if r.high <= r.low {
        return r;
    }
    let rest = s - most(a, r);
    let turned = Range {
        low: r.high,
        high: r.low,
    };
    if 0 <= rest + most(a, turned) {
        return r;
    }
    intervals::interval(r, rest, i64::from(a))
}

// The same part of r where the coefficient is above 0, so that it is cut from below; else all of r.
fn raised(a: i32, s: i64, r: Range) -> Range
    requires { SizedTo 4 s }
    ensures { Part a s r result }
{
    if a <= 0 {
        return r;
    }
    part(a, s, r)
}

// The box with these parts of its ranges in place of them, the most that e can be given to each; nowhere where e ≥ 0 fails throughout.
fn narrowed_by<F: Fn(i32, i64, Range) -> Range>(b: Ranges, e: Expr, part: F) -> Ranges
    requires asked { (a s : ℤ) (r : _) → SizedTo 4 s → F.pre part a s r }
    requires given { (a s : ℤ) (r x : _) → SizedTo 4 s → F.post part a s r x → Part a s r x }
    ensures { Cut (affine e) b.list result.list }
{
    let s = best(b, e);
    if s < 0 {
        return NOWHERE;
    }
    let mut c = b;
    for i in 0..PARAMETERS {
        c.list[i] = part(e.coefs[i], s, b.list[i]);
    }
    c
}

// The box without the parts of its ranges in which e ≥ 0 fails, the other parameters being at their best.
pub fn cut(b: Ranges, e: Expr) -> Ranges
    ensures { Cut (affine e) b.list result.list }
{
    narrowed_by(b, e, part)
}

// The box with its ranges cut from below alone, where e ≥ 0 fails, the other parameters being at their best.
pub fn raise(b: Ranges, e: Expr) -> Ranges
    ensures { Cut (affine e) b.list result.list }
{
    narrowed_by(b, e, raised)
}
