// What the public calls answer, and the number and place that paper 01, "When no piece is given", has for each answer.
#![tactic(auto)]

pub mod file;
pub mod sweep;
pub mod windows;

// A number of the paper and a place.
#[derive(Clone, Copy, PartialEq, Eq)]
pub struct Numbered {
    pub number: usize,
    pub place: usize,
}
