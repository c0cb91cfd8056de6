// Sweep's rules for a wait and for resets, on matrices of weights by value.
#![tactic(auto)]

ghost use Rattle.std.specs.Prelude.{◌≡◌, get_or, set, ◌<◌};
ghost use Rattle.weight.specs.Records.{zero_weight};
ghost use Rattle.weight_matrix.specs.Tables.{delayed_row, delayed_table, reset_entry, reset_row, reset_line, reset_table, reset_if, resets_table};

use weight::Weight;
use weight_matrix::is_void;

// A row after a wait: its entry for clock 0 is none, unless the row lies past the clocks.
fn delayed_row(past: bool, row: [Weight; 5]) -> [Weight; 5]
    ensures { result ≡ delayed_row past row }
{
    if past {
        return row;
    }
    [Weight::NONE, row[1], row[2], row[3], row[4]]
}

// The matrix after a wait: entries (i, 0), i ≥ 1, become none. A void one stays.
pub fn delayed(m: [[Weight; 5]; 5], clocks: usize) -> [[Weight; 5]; 5]
    ensures { result ≡ delayed_table m clocks }
{
    if is_void(m) {
        return m;
    }
    [
        m[0],
        delayed_row(clocks < 1, m[1]),
        delayed_row(clocks < 2, m[2]),
        delayed_row(clocks < 3, m[3]),
        delayed_row(clocks < 4, m[4]),
    ]
}

// An entry of the row of a clock that is reset: what clock 0 has there; on the diagonal, or past the clocks, it stays.
fn reset_entry(past: bool, same: bool, was: Weight, zero: Weight) -> Weight
    ensures { result ≡ reset_entry past same was zero }
{
    if past {
        return was;
    }
    if same {
        return was;
    }
    zero
}

// The row of the clock r that is reset: (r, j) takes (0, j) for j other than r.
fn reset_row(clocks: usize, r: usize, old: [Weight; 5], zero: [Weight; 5]) -> [Weight; 5]
    ensures { result ≡ reset_row clocks r old zero }
{
    [
        reset_entry(false, r == 0, old[0], zero[0]),
        reset_entry(clocks < 1, r == 1, old[1], zero[1]),
        reset_entry(clocks < 2, r == 2, old[2], zero[2]),
        reset_entry(clocks < 3, r == 3, old[3], zero[3]),
        reset_entry(clocks < 4, r == 4, old[4], zero[4]),
    ]
}

// Another clock's row where the clock r is reset: (j, r) takes (j, 0).
fn reset_column(r: usize, old: [Weight; 5]) -> [Weight; 5]
    requires { r < 5 }
    ensures { result ≡ set old r (get_or old 0 zero_weight) }
{
    let mut row = old;
    row[r] = old[0];
    row
}

// Row k where the clock r is reset. A row past the clocks stays.
fn reset_line(m: [[Weight; 5]; 5], clocks: usize, r: usize, k: usize) -> [Weight; 5]
    requires { (r < 5) × (k < 5) }
    ensures { result ≡ reset_line m clocks r k }
{
    let old = m[k];
    if clocks < k {
        return old;
    }
    if k == r {
        return reset_row(clocks, r, old, m[0]);
    }
    reset_column(r, old)
}

// The matrix where the clock r, which the sheet has, is reset.
fn reset(m: [[Weight; 5]; 5], clocks: usize, r: usize) -> [[Weight; 5]; 5]
    requires { r < 5 }
    ensures { result ≡ reset_table m clocks r }
{
    [
        reset_line(m, clocks, r, 0),
        reset_line(m, clocks, r, 1),
        reset_line(m, clocks, r, 2),
        reset_line(m, clocks, r, 3),
        reset_line(m, clocks, r, 4),
    ]
}

// The matrix where the clock r is reset if its bit is set and the sheet has it.
fn reset_if(m: [[Weight; 5]; 5], clocks: usize, r: usize, bit: u8) -> [[Weight; 5]; 5]
    requires { r < 5 }
    ensures { result ≡ reset_if m clocks r bit }
{
    if bit == 1 {
        if r <= clocks {
            return reset(m, clocks, r);
        }
    }
    m
}

// The matrix after the resets, in rising order: bit i - 1 for clock i. A void one stays.
pub fn resets(m: [[Weight; 5]; 5], clocks: usize, bits: u8) -> [[Weight; 5]; 5]
    ensures { result ≡ resets_table m clocks bits }
{
    if is_void(m) {
        return m;
    }
    let one = reset_if(m, clocks, 1, bits % 2);
    let two = reset_if(one, clocks, 2, bits / 2 % 2);
    let three = reset_if(two, clocks, 3, bits / 4 % 2);
    reset_if(three, clocks, 4, bits / 8 % 2)
}
