// Two zones that a split has made of one: the same inequalities, but the last ones are its halves.
#![tactic(auto)]

mod pair;
mod same;

pub use pair::siblings;
