// One inequality over the ranges of the parameters: the most that it can be there, and the ranges without parts in which it fails.
#![tactic(auto)]

mod boxes;

pub use boxes::{best, cut, raise};
