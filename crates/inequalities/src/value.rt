// The value of an inequality at a valuation.
ghost use Rattle.std.specs.Prelude.{◌≡◌, ◌*ℤ◌};
ghost use Rattle.expr.specs.Affine.{value};
ghost use Rattle.expr.specs.Records.{affine};
ghost use Rattle.inequalities.specs.Sizes.{Sized, SizedTo};

use expr::{Expr, PARAMETERS, Valuation};

// Coefficient a times x.
pub fn term(a: i32, x: i16) -> i64
    ensures value { result ≡ a *ℤ x }
    ensures small { Sized result }
{
    i64::from(a) * i64::from(x)
}

// The value of e at a valuation.
pub fn value_at(v: Valuation, e: Expr) -> i64
    ensures value { result ≡ value (affine e) v.numbers }
    ensures small { SizedTo 4 result }
{
    let mut total = i64::from(e.constant);
    for j in 0..PARAMETERS {
        total += term(e.coefs[j], v.numbers[j]);
    }
    total
}
