// Zones (paper: pieces) by value, their inequalities as the list that the search takes, and what is known of a zone before its tests.
#![tactic(auto)]

mod hint;
mod system;
mod told;
mod zone;

pub use hint::{Hint, better, found, hint_of, holds, noted};
pub use system::{Flat, flat_of, put};
pub use told::Told;
pub use zone::{Zone, Zones, with_inequality, with_opposite};
