// Sweep's rules for a guard on a matrix of weights.
#![tactic(auto)]

ghost use Rattle.std.specs.Prelude.{◌≡◌, ◌<◌, cond, ltb};
ghost use Rattle.weight_matrix.specs.Tables.{sum_c, limited_entry, limited_row, limited_table, guarded_table};

use weight::Weight;
use weight_matrix::{is_void, void};

// An entry: s + add where that is tighter than it was, unless it lies past the clocks.
fn limited_entry(past: bool, was: Weight, s: Weight, add: Weight) -> Weight
    ensures { result ≡ limited_entry past was s add }
{
    if past {
        return was;
    }
    let via = s.sum(add);
    if via.tighter(was) {
        return via;
    }
    was
}

// A row: each entry takes s + add where that is tighter.
fn limited_row(clocks: usize, old: [Weight; 5], s: Weight, add: [Weight; 5]) -> [Weight; 5]
    ensures { result ≡ limited_row clocks old s add }
{
    [
        limited_entry(false, old[0], s, add[0]),
        limited_entry(clocks < 1, old[1], s, add[1]),
        limited_entry(clocks < 2, old[2], s, add[2]),
        limited_entry(clocks < 3, old[3], s, add[3]),
        limited_entry(clocks < 4, old[4], s, add[4]),
    ]
}

// Row k, `old`, after a guard with the weight e: `first` is its entry for the guard's left clock, `add` the row of the right one. A row
// past the clocks stays.
fn limited_line(
    clocks: usize,
    k: usize,
    old: [Weight; 5],
    first: Weight,
    e: Weight,
    add: [Weight; 5],
) -> [Weight; 5]
    ensures { result ≡ cond (ltb clocks k) old (limited_row clocks old (sum_c first e) add) }
{
    if clocks < k {
        return old;
    }
    limited_row(clocks, old, first.sum(e), add)
}

// The matrix after the guard i - j with the weight e, which is tighter than (i, j): all old entries are read.
fn limited(m: [[Weight; 5]; 5], clocks: usize, i: usize, j: usize, e: Weight) -> [[Weight; 5]; 5]
    requires { (i < 5) × (j < 5) }
    ensures { result ≡ limited_table m clocks i j e }
{
    let add = m[j];
    [
        limited_line(clocks, 0, m[0], m[0][i], e, add),
        limited_line(clocks, 1, m[1], m[1][i], e, add),
        limited_line(clocks, 2, m[2], m[2][i], e, add),
        limited_line(clocks, 3, m[3], m[3][i], e, add),
        limited_line(clocks, 4, m[4], m[4][i], e, add),
    ]
}

// One guard i - j with the weight e: void if e + (j, i) is tighter than zero; else m, if e isn't tighter than (i, j); else limited.
pub fn guarded(
    m: [[Weight; 5]; 5],
    clocks: usize,
    i: usize,
    j: usize,
    e: Weight,
) -> [[Weight; 5]; 5]
    ensures { result ≡ guarded_table m clocks i j e }
{
    if 4 < i {
        return m;
    }
    if 4 < j {
        return m;
    }
    if is_void(m) {
        return m;
    }
    let back = m[j][i];
    if e.sum(back).tighter(Weight::ZERO) {
        return void();
    }
    if e.tighter(m[i][j]) {
        return limited(m, clocks, i, j, e);
    }
    m
}
