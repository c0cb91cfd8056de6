// The two parts of a split, where they stand (crate cells), and what is known of each.
#![tactic(auto)]

mod halves;
mod hints;

pub use halves::halved;
pub use hints::hint_at;
