// Two inequalities that cannot both hold in a box of ranges: a weighted sum of them is below 0 throughout the box.
#![tactic(auto)]

mod list;
mod pair;
mod sum;

pub use list::clashes;
pub use pair::clash;
