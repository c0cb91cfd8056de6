// The zones (paper: pieces) of a sheet along its whole route: in each location the invariants (paper: standing limits), a wait and the
// invariants again, then the transition's guards and resets.
#![tactic(auto)]

mod along;

pub use along::{Ended, walk};
