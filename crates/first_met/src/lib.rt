// The first valuation of ranges that meets inequalities.
#![tactic(auto)]

mod search;

pub use search::first;
