// Counted lists of guards (paper 01, "The sheet file"): straight from their bytes where all fields are right, else field by field.
//
// Every public function is total, and its contract is an equation with a definition of guards/specs/Guards.
#![tactic(auto)]

ghost use Rattle.std.specs.Prelude.{◌≡◌, ◌<◌};
ghost use Rattle.guards.specs.Guards.{guard_step, guards_at};
ghost use Rattle.guard_lists.specs.Listed.{guards_from};

use cursor::{Cursor, byte_field};
use guard_bytes::guard_plain;
use guard_fields::guard_at;
use guards::{Guard, GuardsAt};

// One more guard, if the count says so.
fn guard_step(
    file: &[u8],
    end: usize,
    most: u8,
    parameters: u8,
    clocks: u8,
    i: usize,
    list: GuardsAt,
) -> GuardsAt
    requires { i < 6 }
    ensures { result ≡ guard_step file.now end most parameters clocks i list }
{
    if i < list.count {
        let read = guard_at(file, end, most, parameters, clocks, list.cursor);
        let mut next = list;
        let cursor = read.cursor;
        next.cursor = cursor;
        let guard = read.guard;
        next.guards[i] = guard;
        next
    } else {
        list
    }
}

// The guards after a count, read by fields.
fn guards_by_field(
    file: &[u8],
    end: usize,
    most: u8,
    parameters: u8,
    clocks: u8,
    count: Cursor,
) -> GuardsAt
    ensures { result ≡ guards_from file.now end most parameters clocks count 6 }
{
    let mut list = GuardsAt {
        cursor: count,
        count: count.byte as usize,
        guards: [Guard::BLANK; 6],
    };
    for i in 0..6 {
        list = guard_step(file, end, most, parameters, clocks, i, list);
    }
    list
}

// The guards after a count: straight from their bytes, and by fields where one is not right.
fn guards_from(
    file: &[u8],
    end: usize,
    most: u8,
    parameters: u8,
    clocks: u8,
    count: Cursor,
) -> GuardsAt
    ensures { result ≡ guards_from file.now end most parameters clocks count 6 }
{
    if !count.ok {
        return guards_by_field(file, end, most, parameters, clocks, count);
    }
    let n = usize::from(count.byte).min(6);
    let mut guards = [Guard::BLANK; 6];
    let mut at = count.at;
    let mut byte = count.byte;
    let mut word = count.word;
    for i in 0..n {
        let Some(read) = guard_plain(file, end, most, parameters, clocks, at) else {
            return guards_by_field(file, end, most, parameters, clocks, count);
        };
        let guard = read.guard;
        guards[i] = guard;
        at += 6 + 2 * usize::from(most);
        byte = 0;
        word = read.word;
    }
    GuardsAt {
        cursor: Cursor {
            ok: true,
            at,
            byte,
            word,
        },
        count: count.byte as usize,
        guards,
    }
}

// The guards at a cursor: a count, 0 to 6, then the guards, each with `most` coefficients.
pub fn guards_at(
    file: &[u8],
    end: usize,
    most: u8,
    parameters: u8,
    clocks: u8,
    cursor: Cursor,
) -> GuardsAt
    ensures { result ≡ guards_at file.now end most parameters clocks cursor }
{
    let count = byte_field(file, end, 0, 6, cursor);
    guards_from(file, end, most, parameters, clocks, count)
}
