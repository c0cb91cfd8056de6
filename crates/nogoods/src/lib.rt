// Nogoods: expressions that were found to be below 0 wherever some inequalities hold, kept so that the same is not asked again.
#![tactic(auto)]

ghost use Rattle.std.specs.Prelude.{◌≡◌, true, false, ℤ, pos, ◌≤ℤ◌, List};
ghost use Rattle.std.specs.Int.Signed.{le_z};
ghost use Rattle.expr.specs.Affine.{value};
ghost use Rattle.expr.specs.Records.{affine};
ghost use Rattle.nogoods.specs.Nogoods.{Below, with_c};

use expr::{Expr, PARAMETERS};

// The last three, and the place that the next one takes.
#[derive(Clone, Copy)]
pub struct Nogoods {
    pub list: [Expr; 3],
    pub next: usize,
}

// -1, which is below 0 everywhere.
const BELOW: Expr = Expr {
    constant: -1,
    coefs: [0; PARAMETERS],
};

impl Nogoods {
    // None that says anything.
    pub const NONE: Nogoods = Nogoods {
        list: [BELOW; 3],
        next: 0,
    };
}

// Whether e is seen to be nowhere more than f.
fn at_most(e: Expr, f: Expr) -> bool
    ensures { result ≡ true → (v : List ℤ) → value (affine e) v ≤ℤ value (affine f) v }
{
    if e.coefs == f.coefs {
        return e.constant <= f.constant;
    }
    false
}

// Whether e is seen to be below 0 wherever they are.
pub fn refute(g: Nogoods, e: Expr) -> bool
    ensures { result ≡ true → (v : List ℤ) → Below g.list v → le_z (pos 0) (value (affine e) v) ≡ false }
{
    g.list.iter().any(|f| at_most(e, *f))
}

// With one more, in the place of the oldest.
#[tactic(auto, unfolding(crate::specs::Nogoods::with_c))]
pub fn with(g: Nogoods, e: Expr) -> Nogoods
    ensures { result ≡ with_c g e }
{
    let at = g.next % 3;
    let mut more = g;
    more.list[at] = e;
    more.next = at + 1;
    more
}
