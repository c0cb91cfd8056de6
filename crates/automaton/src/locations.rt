// Body 2: the clocks and the locations.
ghost use Rattle.std.specs.Prelude.{◌≡◌, ◌<◌};
ghost use Rattle.automaton.specs.Automaton.{location_step, locations_read, locations_at};

use super::Location;
use cursor::{Cursor, byte_field, finished};
use guard_lists::guards_at;

// Body 2: where reading stands after it, how many clocks and locations, and the locations.
#[derive(Clone, Copy)]
pub struct LocationsAt {
    pub cursor: Cursor,
    pub clocks: u8,
    pub count: u8,
    pub list: [Location; 16],
}

// One more location, if the count says so.
fn location_step(
    file: &[u8],
    end: usize,
    most: u8,
    parameters: u8,
    i: usize,
    all: LocationsAt,
) -> LocationsAt
    requires { i < 16 }
    ensures { result ≡ location_step file.now end most parameters i all }
{
    if i < (all.count as usize) {
        let read = guards_at(file, end, most, parameters, all.clocks, all.cursor);
        let mut next = all;
        next.cursor = read.cursor;
        let guards = read.guards;
        next.list[i] = Location {
            count: read.count,
            guards,
        };
        next
    } else {
        all
    }
}

// The fields of body 2.
fn locations_read(file: &[u8], end: usize, most: u8, parameters: u8, cursor: Cursor) -> LocationsAt
    ensures { result ≡ locations_read file.now end most parameters cursor }
{
    let clocks = byte_field(file, end, 1, 4, cursor);
    let count = byte_field(file, end, 1, 16, clocks);
    let mut all = LocationsAt {
        cursor: count,
        clocks: clocks.byte,
        count: count.byte,
        list: [Location::BLANK; 16],
    };
    for i in 0..16 {
        all = location_step(file, end, most, parameters, i, all);
    }
    all
}

// Body 2: the clocks and the locations.
pub fn locations_at(
    file: &[u8],
    end: usize,
    most: u8,
    parameters: u8,
    cursor: Cursor,
) -> LocationsAt
    ensures { result ≡ locations_at file.now end most parameters cursor }
{
    let mut all = locations_read(file, end, most, parameters, cursor);
    all.cursor = finished(end, all.cursor);
    all
}
