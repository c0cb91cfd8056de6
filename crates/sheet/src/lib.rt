// A sheet by value (paper 01, "The sheet file"), and its locations and transitions by number, where an index past the list's end stands
// for the first place. What lies past a count is zero, so that a file has one sheet.
//
// Every function is total, and its contract is an equation with a definition of specs/Lookup.
#![tactic(auto)]

ghost use Rattle.std.specs.Prelude.{◌≡◌};
ghost use Rattle.sheet.specs.Lookup.{location_c, transition_c};

use automaton::{Location, Transition};
use expr::Ranges;

// A sheet: its version, 1 or 2, parameters (paper: allowances) with their ranges, clocks (paper: watches), locations (paper: stages),
// transitions (paper: moves), and the route, a list of transition numbers.
#[derive(Clone, Copy)]
pub struct Sheet {
    pub version: usize,
    pub parameters: usize,
    pub ranges: Ranges,
    pub clocks: usize,
    pub locations: usize,
    pub location: [Location; 16],
    pub transitions: usize,
    pub transition: [Transition; 32],
    pub moves: usize,
    pub route: [u8; 32],
}

impl Sheet {
    // A sheet with nothing but zeros.
    pub const BLANK: Sheet = Sheet {
        version: 0,
        parameters: 0,
        ranges: Ranges::ZERO,
        clocks: 0,
        locations: 0,
        location: [Location::BLANK; 16],
        transitions: 0,
        transition: [Transition::BLANK; 32],
        moves: 0,
        route: [0; 32],
    };
}

// The location with this number.
pub fn location_at(s: Sheet, l: usize) -> Location
    ensures { result ≡ location_c s l }
{
    if l < 16 { s.location[l] } else { s.location[0] }
}

// The transition with this number.
pub fn transition_at(s: Sheet, n: usize) -> Transition
    ensures { result ≡ transition_c s n }
{
    if n < 32 {
        s.transition[n]
    } else {
        s.transition[0]
    }
}
