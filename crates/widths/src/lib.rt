// How many numbers a range has and how many valuations a box, and a range in two.
#![tactic(auto)]

mod halves;
mod product;
mod ranges;

pub use halves::{lower, upper};
pub use product::volume;
pub use ranges::{point, width};
