// Where the locations and transitions of a file stand: bodies 2 and 3 are read as ever, and of each entry its place is kept.
#![tactic(auto)]

ghost use Rattle.std.specs.Prelude.{◌≡◌};
ghost use Rattle.places.specs.Places.{short_of, location_places, transition_places};

use automaton::transitions::transition_at;
use cursor::{Cursor, byte_field, finished};
use guard_lists::guards_at;

// Body 2: where reading stands after it, how many clocks and locations, and the locations' places.
#[derive(Clone, Copy)]
pub struct LocationPlaces {
    pub cursor: Cursor,
    pub clocks: u8,
    pub count: u8,
    pub list: [u16; 16],
}

// Body 3: where reading stands after it, how many transitions, and their places.
#[derive(Clone, Copy)]
pub struct TransitionPlaces {
    pub cursor: Cursor,
    pub count: u8,
    pub list: [u16; 32],
}

// A place below 65,536 as it is kept; 0 for any other.
fn short(at: usize) -> u16
    ensures { result ≡ short_of at }
{
    if at < 65536 { at as u16 } else { 0 }
}

// Body 2: the places of the locations.
pub fn location_places(
    file: &[u8],
    end: usize,
    most: u8,
    parameters: u8,
    cursor: Cursor,
) -> LocationPlaces
    ensures { result ≡ location_places file.now end most parameters cursor }
{
    let clocks = byte_field(file, end, 1, 4, cursor);
    let count = byte_field(file, end, 1, 16, clocks);
    let n = usize::from(count.byte).min(16);
    let mut list = [0u16; 16];
    let mut here = count;
    for i in 0..n {
        list[i] = short(here.at);
        let read = guards_at(file, end, most, parameters, clocks.byte, here);
        here = read.cursor;
    }
    LocationPlaces {
        cursor: finished(end, here),
        clocks: clocks.byte,
        count: count.byte,
        list,
    }
}

// Body 3: the places of the transitions.
pub fn transition_places(
    file: &[u8],
    end: usize,
    most: u8,
    parameters: u8,
    clocks: u8,
    locations: u8,
    cursor: Cursor,
) -> TransitionPlaces
    ensures { result ≡ transition_places file.now end most parameters clocks locations cursor }
{
    let count = byte_field(file, end, 0, 32, cursor);
    let n = usize::from(count.byte).min(32);
    let mut list = [0u16; 32];
    let mut here = count;
    for i in 0..n {
        list[i] = short(here.at);
        let read = transition_at(file, end, most, parameters, clocks, locations, here);
        here = read.cursor;
    }
    TransitionPlaces {
        cursor: finished(end, here),
        count: count.byte,
        list,
    }
}
