// A route in segments: what comes before the first wait, each stay with the move that ends it, and the last stay. A segment is a list
// of steps.
#![tactic(auto)]

mod segment;

pub use segment::{Segment, moves, segment_at};
