// How many valuations zones hold. They come in the order of the splits that have made them, so that two neighbours that a split has made
// of one are that one again: whole splits are undone before anything is counted.
#![tactic(auto)]

mod stack;
mod total;

pub use total::kept;
