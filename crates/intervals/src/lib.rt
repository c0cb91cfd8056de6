// The part of a parameter's range where an inequality can hold.
#![tactic(auto)]

mod ranges;

pub use ranges::interval;
