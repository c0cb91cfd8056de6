// The inequalities that do not hold throughout a box.
#![tactic(auto)]

mod sift;

pub use sift::sifted;
