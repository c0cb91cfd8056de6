// The most that a weighted sum of two inequalities can be in a box of ranges.
ghost use Rattle.std.specs.Prelude.{◌≡◌, ◌*ℤ◌};
ghost use Rattle.expr.specs.Records.{affine};
ghost use Rattle.narrowing.specs.Best.{best, best_of};
ghost use Rattle.clashes.specs.Sizes.{Multiplier, SizedTerm, SizedCoef, SizedMost, SizedSum};
ghost use Rattle.clashes.specs.Weighted.{weigh, weigh_e};

use expr::{Expr, PARAMETERS, Range, Ranges};

// Multiplier l times x.
fn times(l: i64, x: i32) -> i64
    requires { Multiplier l }
    ensures value { result ≡ l *ℤ x }
    ensures small { SizedTerm result }
{
    l * i64::from(x)
}

// l·x + m·y.
fn weighed(l: i64, x: i32, m: i64, y: i32) -> i64
    requires { Multiplier l × Multiplier m }
    ensures value { result ≡ weigh l x m y }
    ensures small { SizedCoef result }
{
    times(l, x) + times(m, y)
}

// The most that coefficient a times a number of r can be. (That of narrowing is of coefficients of 32 bits, and has other bounds, which
// one function of both would have to take and give: no plainer.)
fn most(a: i64, r: Range) -> i64
    requires { SizedCoef a }
    ensures value { result ≡ best a r }
    ensures small { SizedMost result }
{
    if 0 <= a {
        return a * i64::from(r.high);
    }
    a * i64::from(r.low)
}

// The most that l·e + m·f can be in the box.
pub(crate) fn mixed(b: Ranges, l: i64, e: Expr, m: i64, f: Expr) -> i64
    requires { Multiplier l × Multiplier m }
    ensures value { result ≡ best_of (weigh_e l (affine e) m (affine f)) b.list }
    ensures small { SizedSum 4 result }
{
    let mut sum = weighed(l, e.constant, m, f.constant);
    for i in 0..PARAMETERS {
        let a = weighed(l, e.coefs[i], m, f.coefs[i]);
        sum += most(a, b.list[i]);
    }
    sum
}
