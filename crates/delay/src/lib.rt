// Delays (paper: waits) and resets, on the matrix of a zone (paper: piece) where it stands (crate cells).
#![tactic(auto)]

mod matrix;
mod pairs;

pub use matrix::{delayed, resets};
