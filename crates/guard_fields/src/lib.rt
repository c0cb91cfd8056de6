// A guard (paper: limit) read field by field: the first wrong field stops the cursor there.
//
// Every public function is total, and its contract is an equation with a definition of guards/specs/Guards.
#![tactic(auto)]

ghost use Rattle.std.specs.Prelude.{◌≡◌, ◌<◌};
ghost use Rattle.guards.specs.Guards.{guard_expr, coef_step, coefs_at, zero_step, zeros_at, guard_at};

use cursor::{Cursor, byte_field};
use expr::{Expr, PARAMETERS};
use guards::{CoefsAt, Guard, GuardAt, bound_of, right_field};
use words::{signed_field, signed_of};

// One more coefficient, if the sheet has the parameter: -1,000 to 1,000.
fn coef_step(file: &[u8], end: usize, parameters: u8, i: usize, all: CoefsAt) -> CoefsAt
    requires { i < 4 }
    ensures { result ≡ coef_step file.now end parameters i all }
{
    if i < (parameters as usize) {
        let field = signed_field(file, end, 31768, 33768, all.cursor);
        let mut next = all;
        next.cursor = field;
        next.coefs[i] = i32::from(signed_of(field.word));
        next
    } else {
        all
    }
}

// The coefficients of the sheet's parameters, in order.
fn coefs_at(file: &[u8], end: usize, parameters: u8, cursor: Cursor) -> CoefsAt
    ensures { result ≡ coefs_at file.now end parameters cursor }
{
    let mut all = CoefsAt {
        cursor,
        coefs: [0; PARAMETERS],
    };
    for i in 0..PARAMETERS {
        all = coef_step(file, end, parameters, i, all);
    }
    all
}

// A zero, if the sheet lacks the parameter and a guard has a coefficient for it.
fn zero_step(file: &[u8], end: usize, most: u8, parameters: u8, i: usize, cursor: Cursor) -> Cursor
    ensures { result ≡ zero_step file.now end most parameters i cursor }
{
    if (parameters as usize) <= i {
        if i < (most as usize) {
            signed_field(file, end, 32768, 32768, cursor)
        } else {
            cursor
        }
    } else {
        cursor
    }
}

// The zeros of the parameters that the sheet lacks.
fn zeros_at(file: &[u8], end: usize, most: u8, parameters: u8, cursor: Cursor) -> Cursor
    ensures { result ≡ zeros_at file.now end most parameters cursor }
{
    let mut after = cursor;
    for i in 0..PARAMETERS {
        after = zero_step(file, end, most, parameters, i, after);
    }
    after
}

// An expression from its constant's field and its coefficients.
fn expr_of(constant: u16, all: CoefsAt) -> Expr
    ensures { result ≡ guard_expr constant all.coefs }
{
    let coefs = all.coefs;
    Expr {
        constant: i32::from(signed_of(constant)),
        coefs,
    }
}

// The guard at a cursor, with `most` coefficients.
pub fn guard_at(
    file: &[u8],
    end: usize,
    most: u8,
    parameters: u8,
    clocks: u8,
    cursor: Cursor,
) -> GuardAt
    ensures { result ≡ guard_at file.now end most parameters clocks cursor }
{
    let left = byte_field(file, end, 0, clocks as usize, cursor);
    let right = right_field(file, end, clocks, left);
    let relation = byte_field(file, end, 0, 1, right);
    let zero = byte_field(file, end, 0, 0, relation);
    let constant = signed_field(file, end, 31768, 33768, zero);
    let all = coefs_at(file, end, parameters, constant);
    let expr = expr_of(constant.word, all);
    let bound = bound_of(relation.byte, expr);
    GuardAt {
        cursor: zeros_at(file, end, most, parameters, all.cursor),
        guard: Guard {
            left: left.byte,
            right: right.byte,
            bound,
        },
    }
}
