// One guard (paper: limit) over a zone (paper: piece): it is split by the guard's tests, and its parts are listed in order.
#![tactic(auto)]

mod cut;
mod list;
mod tests;

pub use cut::cut_one;
pub use list::Counted;
