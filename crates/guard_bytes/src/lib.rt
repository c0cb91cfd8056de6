// Guards whose fields are all right, read straight from their bytes: no cursor is moved field by field. Where a field is wrong, or the end
// is passed, the guards are read by fields, which finds the place.
#![tactic(auto)]

ghost use Rattle.std.specs.Prelude.{◌≡◌, true, cond, ℕ, ◌+◌, ◌*◌, ◌<◌, ◌≤◌, ltb, ℤ, length, List, IfSome};
ghost use Rattle.guards.specs.Guards.{guard_expr};
ghost use Rattle.guard_bytes.specs.Plain.{number_at, head_right, Kept, PlainRead};

use cursor::within;
use expr::{Expr, PARAMETERS};
use guards::{Guard, bound_of, one_zero};
use words::{shifted, signed_of, word_of};

// The coefficients of a guard: the last word, plus 32,768, and the numbers.
#[derive(Clone, Copy)]
struct Coefs {
    pub word: u16,
    pub list: [i32; PARAMETERS],
}

// A guard whose fields are all right: its last word, plus 32,768, and the guard.
#[derive(Clone, Copy)]
pub struct Plain {
    pub word: u16,
    pub guard: Guard,
}

// The number of the signed field at a place, plus 32,768.
fn number_at(file: &[u8], at: usize) -> u16
    requires { at + 1 < length file.now }
    ensures { result ≡ number_at file.now at }
{
    shifted(word_of(file[at], file[at + 1]))
}

// The coefficients of the sheet's parameters, which start at a place, after the constant, if all are right.
fn coefs_plain(file: &[u8], parameters: usize, at: usize, constant: u16) -> Option<Coefs>
    requires { (at + 2 * parameters ≤ length file.now) × (parameters ≤ 4) }
    ensures { IfSome result (λ all. (end most : ℕ) → parameters ≤ most → at + 2 * most ≤ end →
        Kept file.now end most parameters at constant parameters all.word all.list) }
{
    let mut list = [0i32; PARAMETERS];
    let mut word = constant;
    for i in 0..parameters {
        let w = number_at(file, at + 2 * i);
        if !within(31768, w as usize, 33768) {
            return None;
        }
        list[i] = i32::from(signed_of(w));
        word = w;
    }
    Some(Coefs { word, list })
}

// Whether the coefficients that are left are zeros.
fn zeros_plain(file: &[u8], most: usize, parameters: usize, at: usize) -> bool
    requires { (at + 2 * most ≤ length file.now) × (parameters ≤ most) }
    ensures { result ≡ true → (end constant word : ℕ) (list : List ℤ) → at + 2 * most ≤ end →
        Kept file.now end most parameters at constant parameters word list →
        Kept file.now end most parameters at constant most (cond (ltb parameters most) 32768 word) list }
{
    for i in parameters..most {
        if !within(32768, number_at(file, at + 2 * i) as usize, 32768) {
            return false;
        }
    }
    true
}

// Whether the fields before the coefficients are right.
fn head_right(clocks: u8, left: u8, right: u8, relation: u8, zero: u8, constant: u16) -> bool
    ensures { result ≡ head_right clocks left right relation zero constant }
{
    let first = within(0, left as usize, clocks as usize);
    let second = within(0, right as usize, clocks as usize);
    let one = one_zero(left, right);
    let third = within(0, relation as usize, 1);
    let fourth = within(0, zero as usize, 0);
    first & (second & (one & (third & (fourth & within(31768, constant as usize, 33768)))))
}

// An expression from its constant's word and its coefficients.
fn expr_in(constant: u16, all: Coefs) -> Expr
    ensures { result ≡ guard_expr constant all.list }
{
    let coefs = all.list;
    Expr {
        constant: i32::from(signed_of(constant)),
        coefs,
    }
}

// Whether a guard of `most` coefficients, of which the sheet has `parameters`, lies before the end, and the end in the file.
fn room(length: usize, end: usize, most: usize, parameters: usize, at: usize) -> bool
    ensures { result ≡ true → (end ≤ length) × ((at + 6 + 2 * most ≤ end) × ((parameters ≤ most) × (most ≤ 4))) }
{
    end <= length && at <= end && parameters <= most && most <= 4 && 6 + 2 * most <= end - at
}

// The last word of a guard: a zero where it has coefficients past the sheet's parameters.
fn last_word(most: usize, parameters: usize, word: u16) -> u16
    ensures { result ≡ cond (ltb parameters most) 32768 word }
{
    if parameters < most { 32768 } else { word }
}

// The guard at a place from which the file has room for it, if all its fields are right.
fn guard_in(file: &[u8], most: usize, parameters: usize, clocks: u8, at: usize) -> Option<Plain>
    requires { (at + 6 + 2 * most ≤ length file.now) × ((parameters ≤ most) × (most ≤ 4)) }
    ensures { IfSome result (λ read. (end : ℕ) → at + 6 + 2 * most ≤ end →
        PlainRead file.now end most parameters clocks at read.word read.guard) }
{
    let left = file[at];
    let right = file[at + 1];
    let relation = file[at + 2];
    let zero = file[at + 3];
    let constant = number_at(file, at + 4);
    if !head_right(clocks, left, right, relation, zero, constant) {
        return None;
    }
    let all = coefs_plain(file, parameters, at + 6, constant)?;
    if !zeros_plain(file, most, parameters, at + 6) {
        return None;
    }
    let word = last_word(most, parameters, all.word);
    let bound = bound_of(relation, expr_in(constant, all));
    Some(Plain {
        word,
        guard: Guard { left, right, bound },
    })
}

// The guard at a place, if all its fields are right and it lies before the end.
pub fn guard_plain(
    file: &[u8],
    end: usize,
    most: u8,
    parameters: u8,
    clocks: u8,
    at: usize,
) -> Option<Plain>
    ensures { IfSome result (λ read. PlainRead file.now end most parameters clocks at read.word read.guard) }
{
    if room(file.len(), end, most as usize, parameters as usize, at) {
        guard_in(file, most as usize, parameters as usize, clocks, at)
    } else {
        None
    }
}
