// The walk along a sheet's route at one valuation, in plain numbers.
#![tactic(auto)]

mod along;

pub use along::walk;
