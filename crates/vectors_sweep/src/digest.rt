// The digest of a matrix. Its numbers are, entry by entry in row order: 1 if it is none, 1 if it is strict, each 0 otherwise,
// and its number with sign.
use stored::{with_number, with_signed};
use sweep::Row;
use weight::Weight;

// The digest with an entry.
fn with_weight(h: u64, weight: Weight) -> u64 {
    let none = with_number(h, u64::from(weight.none));
    let strict = with_number(none, u64::from(weight.strict));
    with_signed(strict, weight.value)
}

// The digest with a row.
fn with_row(h: u64, row: Row) -> u64 {
    let entries = row.entries;
    let mut mix = h;
    for weight in entries {
        mix = with_weight(mix, weight);
    }
    mix
}

// The digest of a matrix.
pub(crate) fn digest(rows: [Row; 5]) -> u64 {
    let mut mix = 0;
    for row in rows {
        mix = with_row(mix, row);
    }
    mix
}
