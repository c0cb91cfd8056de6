// Two inequalities that cannot both hold in a box.
ghost use Rattle.std.specs.Prelude.{◌≡◌, true};
ghost use Rattle.expr.specs.Records.{affine};
ghost use Rattle.clashes.specs.Sizes.{Multiplier};
ghost use Rattle.clashes.specs.Weighted.{Clash};

use crate::sum::mixed;
use expr::{Expr, PARAMETERS, Ranges};

// z where it is 0 to 4,096, else 0.
fn bounded(z: i64) -> i64
    ensures { Multiplier result }
{
    if z < 0 {
        return 0;
    }
    if 4096 < z {
        return 0;
    }
    z
}

// The multiplier of an inequality in which a parameter has coefficient x, the other having y: y without its sign, where the signs are
// opposite and it is at most 4,096; else 0.
fn multiplier(x: i32, y: i32) -> i64
    ensures { Multiplier result }
{
    if x < 0 {
        return bounded(i64::from(y));
    }
    if 0 < x {
        return bounded(-i64::from(y));
    }
    0
}

// Whether the sum of e and f without a parameter, whose coefficients are x and y, is below 0 throughout the box.
fn without(b: Ranges, e: Expr, f: Expr, x: i32, y: i32) -> bool
    ensures { result ≡ true → Clash b.list (affine e) (affine f) }
{
    let l = multiplier(x, y);
    if l < 1 {
        return false;
    }
    let m = multiplier(y, x);
    if m < 1 {
        return false;
    }
    mixed(b, l, e, m, f) < 0
}

// Whether e ≥ 0 and f ≥ 0 are seen not to hold together in the box: their sum, or a sum without one of the parameters, is below 0
// throughout.
pub fn clash(b: Ranges, e: Expr, f: Expr) -> bool
    ensures { result ≡ true → Clash b.list (affine e) (affine f) }
{
    if mixed(b, 1, e, 1, f) < 0 {
        return true;
    }
    (0..PARAMETERS).any(|j| without(b, e, f, e.coefs[j], f.coefs[j]))
}
