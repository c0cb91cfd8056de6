// One inequality of a flat list, read and written, and its value at a valuation.
// Inequalities stand in a flat list, 1 + PARAMETERS numbers each: the constant, then the coefficients; past the end every number is 0.
#![tactic(auto)]

mod flat;
mod value;

pub use flat::{inequality, put};
pub use value::{term, value_at};
