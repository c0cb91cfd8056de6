// Whether some valuation of ranges meets inequalities, by halves.
#![tactic(auto)]

mod search;
mod widest;

pub use search::some;
