// Expressions and bounds with a valuation put in (paper: a setting).
#![tactic(auto)]

ghost use Rattle.std.specs.Prelude.{◌≡◌};
ghost use Rattle.expr.specs.Affine.{value};
ghost use Rattle.expr.specs.Bounds.{at_v};
ghost use Rattle.expr.specs.Records.{affine, bound_as, point};
ghost use Rattle.weight.specs.Records.{weight_of};

use expr::{Bound, Expr, PARAMETERS, Valuation};
use saturating::product;
use weight::Weight;

// The value of e at v: constant + sum of coefficient × parameter.
fn expr_at(e: Expr, v: Valuation) -> i64
    ensures { result ≡ value (affine e) (point v) }
{
    let mut sum = i64::from(e.constant);
    for i in 0..PARAMETERS {
        sum += product(e.coefs[i], v.numbers[i]);
    }
    sum
}

// The bound b with v put in: its expression's value and its mark; none stays none.
pub fn bound_at(b: Bound, v: Valuation) -> Weight
    ensures { result ≡ weight_of (at_v (point v) (bound_as b)) }
{
    if b.none {
        return Weight::NONE;
    }
    Weight {
        none: false,
        strict: b.strict,
        value: expr_at(b.expr, v),
    }
}
