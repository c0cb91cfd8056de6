// Inequalities in a flat list, 1 + PARAMETERS numbers each.
ghost use Rattle.std.specs.Prelude.{◌≡◌, length, ◌∷◌, ◌+◌, ◌<◌, ◌≤◌};
ghost use Rattle.expr.specs.Records.{affine, four};
ghost use Rattle.inequalities.specs.Flat.{expr_at, expr_from, put_from};

use expr::{Expr, PARAMETERS};

// The inequality whose numbers start at `at`, none of them past the end.
fn whole(flat: &[i32], at: usize) -> Expr
    requires { at + 4 < length flat.now }
    ensures { affine result ≡ expr_from flat.now at }
{
    let mut e = Expr::ZERO;
    e.constant = flat[at];
    for i in 0..PARAMETERS {
        e.coefs[i] = flat[at + 1 + i];
    }
    e
}

// The inequality whose numbers start at `at`, the last of them past the end, where every number is 0.
fn ended(flat: &[i32], at: usize) -> Expr
    requires { length flat.now ≤ at + 4 }
    ensures { affine result ≡ expr_from flat.now at }
{
    let mut row = [0i32; 5];
    if let Some(rest) = flat.get(at..) {
        row[..rest.len()].copy_from_slice(rest);
    }
    whole(&row, 0)
}

// Inequality k; 0 ≥ 0 past the end.
pub fn inequality(flat: &[i32], k: usize) -> Expr
    ensures { affine result ≡ expr_at flat.now k }
{
    if flat.len() <= k {
        return Expr::ZERO;
    }
    let at = 5 * k;
    if at + PARAMETERS < flat.len() {
        return whole(flat, at);
    }
    ended(flat, at)
}

// Writes e into the list, its constant at `at` and its coefficients behind it.
pub fn put(flat: &mut [i32], at: usize, e: Expr)
    requires { at + 5 ≤ length flat.old }
    ensures { flat.new ≡ put_from flat.old at (e.constant ∷ four e.coefs) }
{
    flat[at] = e.constant;
    flat[at + 1..at + 5].copy_from_slice(&e.coefs);
}
