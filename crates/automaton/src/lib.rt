// The timed automaton of a sheet file (paper 01, "The sheet file"): body 2, its clocks (paper: watches) and locations (paper: stages), and
// body 3, its transitions (paper: moves).
//
// Every public function is total, and its contract is an equation with a definition of specs/Automaton.
#![tactic(auto)]

pub mod locations;
pub mod transitions;

use guards::Guard;

// A location (paper: stage) with its invariants (paper: standing limits).
#[derive(Clone, Copy)]
pub struct Location {
    pub count: usize,
    pub guards: [Guard; 6],
}

impl Location {
    // What stands past the count: no guards.
    pub const BLANK: Location = Location {
        count: 0,
        guards: [Guard::BLANK; 6],
    };
}

// A transition (paper: move) from one location to another. Bit i - 1 of `resets` is for clock i.
#[derive(Clone, Copy)]
pub struct Transition {
    pub from: usize,
    pub to: usize,
    pub resets: u8,
    pub count: usize,
    pub guards: [Guard; 6],
}

impl Transition {
    // What stands past the count: zeros.
    pub const BLANK: Transition = Transition {
        from: 0,
        to: 0,
        resets: 0,
        count: 0,
        guards: [Guard::BLANK; 6],
    };
}
