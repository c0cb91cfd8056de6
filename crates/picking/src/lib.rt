// Which ranges of a box have several numbers, and which of them has the fewest.
#![tactic(auto)]

mod picked;

pub use picked::{narrowest, other, two};
