// What Sweep replies for the sheet of an index and a number for each parameter.
ghost use Rattle.std.specs.Prelude.{◌≡◌, true};
ghost use Rattle.expr.specs.Records.{four, range_list};
ghost use Rattle.index.specs.SheetIn.{sheet_in};
ghost use Rattle.answers.specs.Numbers.{sweep_as};
ghost use Rattle.sweep.specs.Reply.{reply_as, blank_reply, in_range};
ghost use Rattle.sweep.specs.TableReply.{placed_of, swept_table, sheet_table};

use answers::sweep::{Found, Refused};
use expr::{PARAMETERS, Range, Ranges, Valuation};
use index::Index;
use weight::Weight;

// A row of Sweep's matrix: entry j of row i bounds clock i - clock j.
#[derive(Clone, Copy)]
pub struct Row {
    pub entries: [Weight; 5],
}

// The answer, and with a run the matrix of tightest bounds. The matrix is no part of the answer: with a refusal or void every entry of it is
// zero, not strict (paper 01).
#[derive(Clone, Copy)]
pub struct Reply {
    pub answer: Result<Found, Refused>,
    pub rows: [Row; 5],
}

// A number for each parameter; 0 for one that the sheet lacks.
#[derive(Clone, Copy)]
pub struct Numbers {
    pub list: [i64; PARAMETERS],
}

// An answer without a matrix.
pub(crate) fn blank(answer: Result<Found, Refused>) -> Reply
    ensures { reply_as result ≡ blank_reply (sweep_as answer) }
{
    let row = Row {
        entries: [Weight::ZERO; 5],
    };
    Reply {
        answer,
        rows: [row; 5],
    }
}

// Void, or the matrix.
fn swept(m: [[Weight; 5]; 5]) -> Reply
    ensures { reply_as result ≡ swept_table m }
{
    if weight_matrix::is_void(m) {
        return blank(Ok(Found::Void));
    }
    // Row by row, as the definition has them: `map` says of its items only that the closure gave each.
    Reply {
        answer: Ok(Found::Run),
        rows: [
            Row { entries: m[0] },
            Row { entries: m[1] },
            Row { entries: m[2] },
            Row { entries: m[3] },
            Row { entries: m[4] },
        ],
    }
}

// Whether x lies in the range.
fn in_range(range: Range, x: i64) -> bool
    ensures { result ≡ in_range range x }
{
    i64::from(range.low) <= x && x <= i64::from(range.high)
}

// x, which lies in the range, as a parameter's value.
fn value_in(range: Range, x: i64) -> i16
    requires { in_range range x ≡ true }
    ensures { result ≡ x }
{
    x as i16
}

// Numbers that lie in the ranges, as a valuation; or the index of the first one outside its range.
fn in_ranges(b: Ranges, numbers: Numbers) -> Result<Valuation, Refused>
    ensures { result ≡ placed_of (range_list b) (four numbers.list) }
{
    let mut v = Valuation::ZERO;
    for i in 0..PARAMETERS {
        let range = b.list[i];
        let x = numbers.list[i];
        if !in_range(range, x) {
            return Err(Refused::Outside(i));
        }
        v.numbers[i] = value_in(range, x);
    }
    Ok(v)
}

// The reply for the sheet of an index: refusal 6, or the sweep.
pub(crate) fn reply_for(file: &[u8], ix: Index, numbers: Numbers) -> Reply
    ensures { reply_as result ≡ sheet_table (sheet_in file.now ix) (four numbers.list) }
{
    match in_ranges(ix.ranges, numbers) {
        Ok(valuation) => swept(walk::walk(file, ix, valuation)),
        Err(refused) => blank(Err(refused)),
    }
}
