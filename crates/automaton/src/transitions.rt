// Body 3: the transitions.
ghost use Rattle.std.specs.Prelude.{◌≡◌, ◌<◌};
ghost use Rattle.automaton.specs.Automaton.{
  resets_right,
  resets_field,
  transition_at,
  transition_step,
  transitions_read,
  transitions_at,
};

use super::Transition;
use cursor::{Cursor, below_field, byte_field, finished, judged};
use guard_lists::guards_at;

// A transition, and where reading stands after it.
#[derive(Clone, Copy)]
pub struct TransitionAt {
    pub cursor: Cursor,
    pub transition: Transition,
}

// Body 3: where reading stands after it, how many transitions, and the transitions.
#[derive(Clone, Copy)]
pub struct TransitionsAt {
    pub cursor: Cursor,
    pub count: u8,
    pub list: [Transition; 32],
}

// Whether all bits past the clocks are 0.
fn resets_right(clocks: u8, resets: u8) -> bool
    ensures { result ≡ resets_right clocks resets }
{
    if clocks < 8 {
        (resets as u32) < (1u32 << clocks)
    } else {
        true
    }
}

// The resets of a transition.
fn resets_field(file: &[u8], end: usize, clocks: u8, cursor: Cursor) -> Cursor
    ensures { result ≡ resets_field file.now end clocks cursor }
{
    let taken = byte_field(file, end, 0, 255, cursor);
    judged(cursor, taken, resets_right(clocks, taken.byte))
}

// The transition where reading stands, and where it stands then.
pub fn transition_at(
    file: &[u8],
    end: usize,
    most: u8,
    parameters: u8,
    clocks: u8,
    locations: u8,
    cursor: Cursor,
) -> TransitionAt
    ensures { result ≡ transition_at file.now end most parameters clocks locations cursor }
{
    let from = below_field(file, end, locations, cursor);
    let to = below_field(file, end, locations, from);
    let resets = resets_field(file, end, clocks, to);
    let read = guards_at(file, end, most, parameters, clocks, resets);
    let guards = read.guards;
    TransitionAt {
        cursor: read.cursor,
        transition: Transition {
            from: from.byte as usize,
            to: to.byte as usize,
            resets: resets.byte,
            count: read.count,
            guards,
        },
    }
}

// One more transition, if the count says so.
fn transition_step(
    file: &[u8],
    end: usize,
    most: u8,
    parameters: u8,
    clocks: u8,
    locations: u8,
    i: usize,
    all: TransitionsAt,
) -> TransitionsAt
    requires { i < 32 }
    ensures { result ≡ transition_step file.now end most parameters clocks locations i all }
{
    if i < (all.count as usize) {
        let read = transition_at(file, end, most, parameters, clocks, locations, all.cursor);
        let mut next = all;
        next.cursor = read.cursor;
        next.list[i] = read.transition;
        next
    } else {
        all
    }
}

// The fields of body 3.
fn transitions_read(
    file: &[u8],
    end: usize,
    most: u8,
    parameters: u8,
    clocks: u8,
    locations: u8,
    cursor: Cursor,
) -> TransitionsAt
    ensures { result ≡ transitions_read file.now end most parameters clocks locations cursor }
{
    let count = byte_field(file, end, 0, 32, cursor);
    let mut all = TransitionsAt {
        cursor: count,
        count: count.byte,
        list: [Transition::BLANK; 32],
    };
    for i in 0..32 {
        all = transition_step(file, end, most, parameters, clocks, locations, i, all);
    }
    all
}

// Body 3: the transitions.
pub fn transitions_at(
    file: &[u8],
    end: usize,
    most: u8,
    parameters: u8,
    clocks: u8,
    locations: u8,
    cursor: Cursor,
) -> TransitionsAt
    ensures { result ≡ transitions_at file.now end most parameters clocks locations cursor }
{
    let mut all = transitions_read(file, end, most, parameters, clocks, locations, cursor);
    all.cursor = finished(end, all.cursor);
    all
}
