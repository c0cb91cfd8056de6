// The index of a file: the whole file is read and judged, and of its locations and transitions only the places are kept.
#![tactic(auto)]

ghost use Rattle.std.specs.Prelude.{◌≡◌};
ghost use Rattle.reading.specs.File.{judged_bodies, read_of};
ghost use Rattle.indexing.specs.Indexed.{index_of, sheet_at, indexed_as};

use answers::file::Refusal;
use contents::Contents;
use contents::entries::{contents_of, most_parameters, sized};
use cursor::Cursor;
use index::Index;
use links::links_of;
use parameters::parameters_at;
use places::{location_places, transition_places};
use reading::few_valuations;
use route::route_at;

// The four bodies: where reading them ended, and the index.
#[derive(Clone, Copy)]
pub struct IndexAt {
    pub cursor: Cursor,
    pub index: Index,
}

// The four bodies of a file, read in order.
fn index_of(file: &[u8], contents: Contents) -> IndexAt
    ensures { result ≡ index_of file.now contents }
{
    let start = Cursor {
        ok: true,
        at: 22,
        byte: 0,
        word: 0,
    };
    let most = most_parameters(contents.version);
    let one = parameters_at(file, contents.first as usize, most, start);
    let two = location_places(file, contents.second as usize, most, one.count, one.cursor);
    let three = transition_places(
        file,
        contents.third as usize,
        most,
        one.count,
        two.clocks,
        two.count,
        two.cursor,
    );
    let four = route_at(file, file.len(), three.count, three.cursor);
    let cursor = four.cursor;
    let ranges = one.ranges;
    let location = two.list;
    let transition = three.list;
    let route = four.list;
    IndexAt {
        cursor,
        index: Index {
            version: contents.version,
            parameters: one.count,
            clocks: two.clocks,
            locations: two.count,
            transitions: three.count,
            moves: four.count,
            second: contents.second,
            third: contents.third,
            ranges,
            location,
            transition,
            route,
        },
    }
}

// Judges the ranges and then the route of a file whose body 4 starts at `third`: its bodies have been read.
fn judged_index(file: &[u8], third: u32, bodies: IndexAt) -> Result<Index, Refusal>
    ensures { indexed_as file.now result ≡ judged_bodies third (sheet_at file.now bodies) }
{
    let cursor = bodies.cursor;
    let index = bodies.index;
    if !cursor.ok {
        return Err(Refusal::Body(cursor.at));
    }
    if !few_valuations(index.ranges) {
        return Err(Refusal::Valuations);
    }
    match links_of(file, index) {
        Ok(_) => Ok(index),
        Err(at) => Err(Refusal::Route((third as usize) + 1 + (at as usize))),
    }
}

// The index of a file, or why it is refused.
pub fn indexed(file: &[u8]) -> Result<Index, Refusal>
    ensures { indexed_as file.now result ≡ read_of file.now }
{
    if !sized(file) {
        return Err(Refusal::Size);
    }
    let contents = contents_of(file);
    let cursor = contents.cursor;
    if cursor.ok {
        judged_index(file, contents.third, index_of(file, contents))
    } else {
        Err(Refusal::Contents(cursor.at))
    }
}
