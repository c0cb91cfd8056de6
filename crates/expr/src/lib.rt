// Expressions over parameters, their ranges and bounds: the arithmetic under Windows and Sweep.
#![tactic(auto)]

mod bound;
mod number;
mod range;

pub use bound::{Bound, Test};
pub use number::{Expr, PARAMETERS, Valuation};
pub use range::{Range, Ranges};
