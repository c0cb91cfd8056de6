// Pairs of inequalities of opposite coefficients.
#![tactic(auto)]

mod pairs;

pub use pairs::{apart, halves};
