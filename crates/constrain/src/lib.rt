// What a guard (paper: limit) asks of a zone's matrix: the tests of its three rules, in order, and what an entry becomes.
#![tactic(auto)]

mod rule;

pub use rule::{Framed, Reads, Rule, framed_of, inside, outside, places, via};
