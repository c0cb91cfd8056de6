// The sheet file (paper 01, "The sheet file") read whole: `read` gives the sheet by value, or why the file is refused, with the place.
//
// Every function is total, and its contract is an equation with a definition of specs/File.
#![tactic(auto)]

ghost use Rattle.std.specs.Prelude.{◌≡◌, leb};
ghost use Rattle.reading.specs.File.{bodies_of, judged_route, judged_widths, judged_bodies, read_of, read_as};
ghost use Rattle.expr.specs.Records.{range_list};
ghost use Rattle.valuations.specs.Valuations.{widths};
ghost use Rattle.sheet.specs.WellFormed.{MOST_VALUATIONS};

use answers::file::Refusal;
use automaton::locations::locations_at;
use automaton::transitions::transitions_at;
use contents::Contents;
use contents::entries::{contents_of, most_parameters, sized};
use cursor::Cursor;
use expr::Ranges;
use parameters::parameters_at;
use route::{links_of, route_at};
use sheet::Sheet;

// The four bodies: where reading them ended, and the sheet.
#[derive(Clone, Copy)]
pub struct SheetAt {
    pub cursor: Cursor,
    pub sheet: Sheet,
}

// The four bodies of a file, read in order.
fn bodies_of(file: &[u8], contents: Contents) -> SheetAt
    ensures { result ≡ bodies_of file.now contents }
{
    let start = Cursor {
        ok: true,
        at: 22,
        byte: 0,
        word: 0,
    };
    let most = most_parameters(contents.version);
    let one = parameters_at(file, contents.first as usize, most, start);
    let two = locations_at(file, contents.second as usize, most, one.count, one.cursor);
    let three = transitions_at(
        file,
        contents.third as usize,
        most,
        one.count,
        two.clocks,
        two.count,
        two.cursor,
    );
    let four = route_at(file, file.len(), three.count, three.cursor);
    let cursor = four.cursor;
    let ranges = one.ranges;
    let location = two.list;
    let transition = three.list;
    let route = four.list;
    SheetAt {
        cursor,
        sheet: Sheet {
            version: contents.version as usize,
            parameters: one.count as usize,
            ranges,
            clocks: two.clocks as usize,
            locations: two.count as usize,
            location,
            transitions: three.count as usize,
            transition,
            moves: four.count as usize,
            route,
        },
    }
}

// Judges the route of a file whose body 4 starts at `third`: its fields and ranges are right.
fn judged_route(third: u32, sheet: Sheet) -> Result<Sheet, Refusal>
    ensures { read_as result ≡ judged_route third sheet }
{
    let transition = sheet.transition;
    let route = sheet.route;
    match links_of(transition, route, sheet.moves) {
        Ok(_) => Ok(sheet),
        Err(index) => Err(Refusal::Route((third as usize) + 1 + (index as usize))),
    }
}

// Whether the ranges have at most 262,144 valuations.
pub fn few_valuations(b: Ranges) -> bool
    ensures { result ≡ leb (widths (range_list b)) MOST_VALUATIONS }
{
    let none = [0i32; 1];
    counting::count(b, &none, 0) <= 262144
}

// Judges the ranges and then the route of a file whose body 4 starts at `third`: its fields are right.
fn judged_widths(third: u32, sheet: Sheet) -> Result<Sheet, Refusal>
    ensures { read_as result ≡ judged_widths third sheet }
{
    if few_valuations(sheet.ranges) {
        judged_route(third, sheet)
    } else {
        Err(Refusal::Valuations)
    }
}

// Judges a file whose body 4 starts at `third`: its bodies have been read.
fn judged_bodies(third: u32, bodies: SheetAt) -> Result<Sheet, Refusal>
    ensures { read_as result ≡ judged_bodies third bodies }
{
    let cursor = bodies.cursor;
    if cursor.ok {
        judged_widths(third, bodies.sheet)
    } else {
        Err(Refusal::Body(cursor.at))
    }
}

// The sheet of a file, or why it is refused.
pub fn read(file: &[u8]) -> Result<Sheet, Refusal>
    ensures { read_as result ≡ read_of file.now }
{
    if !sized(file) {
        return Err(Refusal::Size);
    }
    let contents = contents_of(file);
    let cursor = contents.cursor;
    if cursor.ok {
        judged_bodies(contents.third, bodies_of(file, contents))
    } else {
        Err(Refusal::Contents(cursor.at))
    }
}
