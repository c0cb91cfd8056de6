// How many valuations of ranges meet inequalities.
#![tactic(auto)]

mod counted;

pub use counted::count;
