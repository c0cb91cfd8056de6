// The steps of each segment of a route.
ghost use Rattle.std.specs.Prelude.{◌≡◌, ◌<◌, ◌≤◌, length, take};
ghost use Rattle.index.specs.SheetIn.{sheet_in};
ghost use Rattle.segments.specs.Lists.{Lists, invariant_steps, stay_steps, move_steps};
ghost use Rattle.segments.specs.Segments.{Moved, Segmented};

use automaton::{Location, Transition};
use index::Index;
use steps::{Step, Steps};

// The steps of a segment, and the location where it ends.
#[derive(Clone, Copy)]
pub struct Segment {
    pub steps: Steps,
    pub there: Location,
}

// The steps before the first wait: the invariants (paper: standing limits) of a location.
fn start_steps(here: Location) -> Steps
    ensures { Lists 6 (invariant_steps here) result }
{
    let invariants = here.guards;
    steps::with_guards(Steps::NONE, here.count, invariants)
}

// The steps of a stay: a wait, then the location's invariants.
fn stay_steps(here: Location) -> Steps
    ensures { Lists 7 (stay_steps here) result }
{
    let waits = steps::with_step(Steps::NONE, Step::Delay);
    let invariants = here.guards;
    steps::with_guards(waits, here.count, invariants)
}

// The steps of a stay and of the transition (paper: move) that ends it: its guards, which belong to the visit before it; its resets, with
// which the move is made; and on arrival the invariants of the location that it goes to.
fn move_steps(here: Location, visit: usize, t: Transition, there: Location) -> Steps
    requires { visit < 32 }
    ensures { Lists 20 (move_steps here visit t there) result }
{
    let guards = t.guards;
    let limited = steps::with_guards(stay_steps(here), t.count, guards);
    let made = steps::with_step(
        limited,
        Step::Resets {
            bits: t.resets,
            visit: visit + 1,
        },
    );
    let invariants = there.guards;
    steps::with_guards(made, there.count, invariants)
}

// How many moves the route has.
pub fn moves(ix: Index) -> usize
    ensures value { result ≡ length (take ix.moves ix.route) }
    ensures few { result ≤ 32 }
{
    usize::from(ix.moves).min(32)
}

// A stay in a location and move k.
fn moved(file: &[u8], ix: Index, k: usize, here: Location) -> Segment
    requires { k < 32 }
    ensures { Moved (sheet_in file.now ix) k here result }
{
    let t = index::transition_at(file, ix, usize::from(ix.route[k]));
    let there = index::location_at(file, ix, t.to);
    Segment {
        steps: move_steps(here, k, t, there),
        there,
    }
}

// Segment k, from a location on: 0 comes before the first wait, k has the move before the k-th arrival, the one behind the moves is the
// last stay, and past that there are no steps.
pub fn segment_at(file: &[u8], ix: Index, k: usize, here: Location) -> Segment
    ensures { Segmented (sheet_in file.now ix) k here result }
{
    let n = moves(ix);
    if k == 0 {
        return Segment {
            steps: start_steps(here),
            there: here,
        };
    }
    if k <= n {
        return moved(file, ix, k - 1, here);
    }
    if k == n + 1 {
        return Segment {
            steps: stay_steps(here),
            there: here,
        };
    }
    Segment {
        steps: Steps::NONE,
        there: here,
    }
}
