// Steps over zones (paper: pieces), one after another: where such a pass stands. The zones stay in one list from the first step to the
// last, and only a split keeps parts beside it (specs/Machine); the loop is in crate windows_route.
#![tactic(auto)]

mod pass;

pub use pass::{Pass, begun, dropped, listed, loaded, number, passed_by, pushed, stepped};
