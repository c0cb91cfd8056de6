// Guards (paper: limits, of 12 bytes in version 1 and 14 in version 2; paper 01, "The sheet file"): their record, and the parts of one
// that are read alike by fields and straight from the bytes. specs/Guards says what the bytes of a guard and of a counted list of guards
// mean.
//
// Every public function is total, and its contract is an equation with a definition of specs/Guards.
#![tactic(auto)]

ghost use Rattle.std.specs.Prelude.{◌≡◌};
ghost use Rattle.guards.specs.Guards.{one_zero, guard_bound, right_field};

use cursor::{Cursor, byte_field, judged};
use expr::{Bound, Expr, PARAMETERS};

// A guard (paper: limit): clock `left` - clock `right` is at most, or below, the bound's
// expression. Clock 0 is always zero.
#[derive(Clone, Copy)]
pub struct Guard {
    pub left: u8,
    pub right: u8,
    pub bound: Bound,
}

impl Guard {
    // What stands past a count: zeros.
    pub const BLANK: Guard = Guard {
        left: 0,
        right: 0,
        bound: Bound::ZERO,
    };
}

// The coefficients of a guard, and where reading stands after them.
#[derive(Clone, Copy)]
pub struct CoefsAt {
    pub cursor: Cursor,
    pub coefs: [i32; PARAMETERS],
}

// A guard, and where reading stands after it.
#[derive(Clone, Copy)]
pub struct GuardAt {
    pub cursor: Cursor,
    pub guard: Guard,
}

// The guards of a location or a transition, how many, and where reading stands after them.
#[derive(Clone, Copy)]
pub struct GuardsAt {
    pub cursor: Cursor,
    pub count: usize,
    pub guards: [Guard; 6],
}

// Whether exactly one of two clocks is 0.
pub fn one_zero(left: u8, right: u8) -> bool
    ensures { result ≡ one_zero left right }
{
    if left == 0 { right != 0 } else { right == 0 }
}

// The second clock of a guard whose first has just been read.
pub fn right_field(file: &[u8], end: usize, clocks: u8, left: Cursor) -> Cursor
    ensures { result ≡ right_field file.now end clocks left }
{
    let taken = byte_field(file, end, 0, clocks as usize, left);
    judged(left, taken, one_zero(left.byte, taken.byte))
}

// The bound of a guard: relation 0 is at most, 1 is below.
pub fn bound_of(relation: u8, expr: Expr) -> Bound
    ensures { result ≡ guard_bound relation expr }
{
    Bound {
        none: false,
        strict: relation == 1,
        expr,
    }
}
