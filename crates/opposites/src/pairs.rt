// Two inequalities of opposite coefficients: no valuation meets both if their constants sum below 0, and each meets one of them if these
// sum to -1.
ghost use Rattle.std.specs.Prelude.{◌≡◌, true};
ghost use Rattle.expr.specs.Records.{affine};
ghost use Rattle.opposites.specs.Opposite.{Opposite, Apart, Halves};

use expr::{Expr, PARAMETERS};

// Whether the coefficients are opposite.
fn opposite(e: Expr, f: Expr) -> bool
    ensures { result ≡ true → Opposite e.coefs f.coefs 4 }
{
    for i in 0..PARAMETERS {
        let sum = i64::from(e.coefs[i]) + i64::from(f.coefs[i]);
        if sum != 0 {
            return false;
        }
    }
    true
}

// Whether e ≥ 0 and f ≥ 0 are opposite and too far apart.
pub fn apart(e: Expr, f: Expr) -> bool
    ensures { result ≡ true → Apart (affine e) (affine f) }
{
    if opposite(e, f) {
        return i64::from(e.constant) + i64::from(f.constant) < 0;
    }
    false
}

// Whether e ≥ 0 and f ≥ 0 are the two halves of a split: each valuation meets one of them.
pub fn halves(e: Expr, f: Expr) -> bool
    ensures { result ≡ true → Halves (affine e) (affine f) }
{
    if opposite(e, f) {
        let sum = i64::from(e.constant) + i64::from(f.constant);
        return sum == -1;
    }
    false
}
