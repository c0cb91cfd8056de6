// A part of a zone on its way through the tests of a guard: what follows a test, and the two parts of a split.
#![tactic(auto)]

mod part;

pub use part::{Halt, Next, Part, Turn, after, no_part, tests_in, turned, yes_part};
