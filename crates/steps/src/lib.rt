// Steps along a route: waits, guards (paper: limits) and resets, in lists; and what a step makes of one zone (paper: piece)
// before its tests.
#![tactic(auto)]

mod step;

pub use step::{Step, Steps, asked, changed, taken, with_guards, with_step};
