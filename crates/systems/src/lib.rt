// Several inequalities over a box of ranges: what they leave of it, whether a valuation meets them, and whether two of them are opposite
// and too far apart. They are the first n of a flat list (crate inequalities).
#![tactic(auto)]

mod boxes;
mod opposite;

pub use boxes::{meets, narrowed, trimmed};
pub use opposite::opposed;
