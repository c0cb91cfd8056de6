// Zones (paper: pieces) as plain numbers in lists that are lent, so that they are changed where they stand.
//
// A list of numbers has PLACES places of 50 rows, five numbers each (crate inequalities): 25 rows for inequalities, of which 24 are used,
// and 25 for the expressions of the matrix; a list of marks has 25 for each place, of an entry whether it is none and whether it is
// strict. How many inequalities count is told apart (specs/Cells).
#![tactic(auto)]

mod copies;
mod entries;
mod lines;

pub use copies::copy;
pub use entries::{bound_at, put_bound};
pub use lines::{Rows, put_row, rows_at};

// How many places there are.
pub const PLACES: usize = 90;
