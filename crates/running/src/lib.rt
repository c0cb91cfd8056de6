// A part of a zone worked on where it stands (crate cells) until it stops: the tests of a guard one after another; and the two parts of a
// split.
#![tactic(auto)]

mod task;
mod tests;

pub use task::{Guarding, Task, answered, of_guard};
pub use tests::{Stop, run};
