// A box of which two ranges have several numbers, under inequalities: for each number of the one range, the part of the other where they
// hold is exact.
#![tactic(auto)]

mod lines;
mod sums;

pub use sums::count_rows;
