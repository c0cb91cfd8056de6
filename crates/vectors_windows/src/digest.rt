// The digest of the places of a table. The numbers of a place are: 1 if it is used and 0 otherwise, the four numbers with sign of its
// first valuation, the count of inequalities, the five numbers with sign of each of the 24 inequalities, and for each of the 25 bounds in
// row order 1 if it is none, 1 if it is strict, each 0 otherwise, and its five numbers with sign. A blank table has the digest 0.
use expr::{Bound, Expr, Valuation};
use stored::{with_number, with_signed};
use windows::Piece;

// The digest with the four numbers of a valuation.
fn with_valuation(h: u64, v: &Valuation) -> u64 {
    v.numbers
        .iter()
        .fold(h, |mix, x| with_signed(mix, i64::from(*x)))
}

// The digest with the five numbers of an expression.
fn with_expr(h: u64, e: &Expr) -> u64 {
    let constant = with_signed(h, i64::from(e.constant));
    e.coefs
        .iter()
        .fold(constant, |mix, x| with_signed(mix, i64::from(*x)))
}

// The digest with a bound.
fn with_bound(h: u64, b: &Bound) -> u64 {
    let none = with_number(h, u64::from(b.none));
    let strict = with_number(none, u64::from(b.strict));
    with_expr(strict, &b.expr)
}

// The digest with a place of the table.
fn with_piece(h: u64, z: &Piece) -> u64 {
    let used = with_number(h, u64::from(z.used));
    let first = with_valuation(used, &z.first);
    let count = with_number(first, z.count as u64);
    let ineqs = z.ineqs.iter().fold(count, with_expr);
    z.bounds.iter().fold(ineqs, with_bound)
}

// The digest of the places of a table.
pub(crate) fn digest(places: &[Piece]) -> u64 {
    places.iter().fold(0, with_piece)
}
