// Body 1 of a sheet file (paper 01, "The sheet file"): the parameters (paper: allowances) with their ranges.
//
// Every public function is total, and its contract is an equation with a definition of specs/Parameters.
#![tactic(auto)]

ghost use Rattle.std.specs.Prelude.{◌≡◌, ◌<◌};
ghost use Rattle.parameters.specs.Parameters.{
  range_of,
  highest_right,
  highest_field,
  range_step,
  parameters_read,
  parameters_at,
};

use cursor::{Cursor, byte_field, finished, judged};
use expr::{PARAMETERS, Range, Ranges};
use words::{signed_field, signed_of};

// Body 1: where reading stands after it, how many parameters, and their ranges.
#[derive(Clone, Copy)]
pub struct ParametersAt {
    pub cursor: Cursor,
    pub count: u8,
    pub ranges: Ranges,
}

// A range from its two fields.
fn range_of(low: u16, high: u16) -> Range
    ensures { result ≡ range_of low high }
{
    Range {
        low: signed_of(low),
        high: signed_of(high),
    }
}

// Whether a range's highest is right after its lowest: not less, and at most 63 more.
fn highest_right(low: u16, high: u16) -> bool
    ensures { result ≡ highest_right low high }
{
    low <= high && high - low <= 63
}

// The highest of a range whose lowest has just been read.
fn highest_field(file: &[u8], end: usize, low: Cursor) -> Cursor
    ensures { result ≡ highest_field file.now end low }
{
    let taken = signed_field(file, end, 31768, 33768, low);
    judged(low, taken, highest_right(low.word, taken.word))
}

// One more range, if the count says so.
fn range_step(file: &[u8], end: usize, i: usize, all: ParametersAt) -> ParametersAt
    requires { i < 4 }
    ensures { result ≡ range_step file.now end i all }
{
    if i < (all.count as usize) {
        let low = signed_field(file, end, 31768, 33768, all.cursor);
        let high = highest_field(file, end, low);
        let mut ranges = all.ranges;
        ranges.list[i] = range_of(low.word, high.word);
        ParametersAt {
            cursor: high,
            count: all.count,
            ranges,
        }
    } else {
        all
    }
}

// The fields of body 1.
fn parameters_read(file: &[u8], end: usize, most: u8, cursor: Cursor) -> ParametersAt
    ensures { result ≡ parameters_read file.now end most cursor }
{
    let count = byte_field(file, end, 0, most as usize, cursor);
    let mut all = ParametersAt {
        cursor: count,
        count: count.byte,
        ranges: Ranges::ZERO,
    };
    for i in 0..PARAMETERS {
        all = range_step(file, end, i, all);
    }
    all
}

// Body 1: the parameters, at most `most`.
pub fn parameters_at(file: &[u8], end: usize, most: u8, cursor: Cursor) -> ParametersAt
    ensures { result ≡ parameters_at file.now end most cursor }
{
    let mut all = parameters_read(file, end, most, cursor);
    all.cursor = finished(end, all.cursor);
    all
}
