// Boxes of ranges: the lowest corner, whether a valuation lies inside, and which ranges have several numbers.
#![tactic(auto)]

mod corners;

pub use corners::{corner, inside, turned, wide};
