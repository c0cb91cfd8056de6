// The index of a sheet file: its counts and ranges, its route, and where each location and transition stands, which is read again from
// there when it is asked for. It is some 160 bytes, in place of a sheet by value.
//
// Every public function is total, and its contract is an equation with the definitions of crates sheet and route, of the sheet that
// specs/SheetIn gives to an index.
#![tactic(auto)]

ghost use Rattle.std.specs.Prelude.{◌≡◌};
ghost use Rattle.cursor.specs.Cursor.{advanced};
ghost use Rattle.sheet.specs.Lookup.{at, location_c, transition_c};
ghost use Rattle.index.specs.SheetIn.{sheet_in};

use automaton::{Location, Transition};
use contents::entries::most_parameters;
use cursor::Cursor;
use expr::Ranges;
use guard_lists::guards_at;

// The index of a file: its version, how many parameters, clocks, locations, transitions and moves, the ends of bodies 2 and 3, the
// ranges, the places of locations and transitions in the file, and the route.
#[derive(Clone, Copy)]
pub struct Index {
    pub version: u8,
    pub parameters: u8,
    pub clocks: u8,
    pub locations: u8,
    pub transitions: u8,
    pub moves: u8,
    pub second: u32,
    pub third: u32,
    pub ranges: Ranges,
    pub location: [u16; 16],
    pub transition: [u16; 32],
    pub route: [u8; 32],
}

impl Index {
    // The index of nothing: zeros.
    pub const BLANK: Index = Index {
        version: 0,
        parameters: 0,
        clocks: 0,
        locations: 0,
        transitions: 0,
        moves: 0,
        second: 0,
        third: 0,
        ranges: Ranges::ZERO,
        location: [0; 16],
        transition: [0; 32],
        route: [0; 32],
    };
}

// i, or 0 where i is not below n.
fn place(n: usize, i: usize) -> usize
    ensures { result ≡ at n i }
{
    if i < n { i } else { 0 }
}

// Reading stands at a place.
pub fn standing(at: u16) -> Cursor
    ensures { result ≡ advanced at 0 }
{
    Cursor {
        ok: true,
        at: at as usize,
        byte: 0,
        word: 0,
    }
}

// The location with this number, read again where it stands.
pub fn location_at(file: &[u8], ix: Index, l: usize) -> Location
    ensures { result ≡ location_c (sheet_in file.now ix) l }
{
    let k = place(16, l);
    if k < (ix.locations as usize) {
        let most = most_parameters(ix.version);
        let from = standing(ix.location[k]);
        let read = guards_at(
            file,
            ix.second as usize,
            most,
            ix.parameters,
            ix.clocks,
            from,
        );
        let guards = read.guards;
        Location {
            count: read.count,
            guards,
        }
    } else {
        Location::BLANK
    }
}

// The transition with this number, read again where it stands.
pub fn transition_at(file: &[u8], ix: Index, n: usize) -> Transition
    ensures { result ≡ transition_c (sheet_in file.now ix) n }
{
    let k = place(32, n);
    if k < (ix.transitions as usize) {
        let read = automaton::transitions::transition_at(
            file,
            ix.third as usize,
            most_parameters(ix.version),
            ix.parameters,
            ix.clocks,
            ix.locations,
            standing(ix.transition[k]),
        );
        read.transition
    } else {
        Transition::BLANK
    }
}
