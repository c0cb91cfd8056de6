// The two parts of a split.
ghost use Rattle.std.specs.Prelude.{◌≡◌, ◌+◌, ◌<◌, length, get_or, set};
ghost use Rattle.cells.specs.Cells.{cells_in, no_cell};
ghost use Rattle.constrain.specs.Rules.{via_c};
ghost use Rattle.running.specs.Tasks.{rule_at};
ghost use Rattle.parting.specs.Halves.{yes_cell, halves_c};

use expr::Bound;
use running::{Guarding, Task};

// What the entry x takes where it is tighter, of the matrix at place `old`: (k, i) + e + (j, l), two sums from the left.
fn via_at(cells: &[i32], marks: &[u8], old: usize, g: Guarding, x: usize) -> Bound
    requires { (length marks.now ≡ 2250) × ((old < 90) × (x < 25)) }
    ensures { result ≡ via_c (rule_at (cells_in cells.now marks.now) old g) x }
{
    let at = constrain::places(g.left, g.right, x + 2);
    let bound = g.bound;
    let first = cells::bound_at(cells, marks, old, at.first);
    let last = cells::bound_at(cells, marks, old, at.last);
    first.sum(bound).sum(last)
}

// Makes the zone at place p, with n inequalities, the yes part of a split.
fn yes_at(cells: &mut [i32], marks: &mut [u8], p: usize, old: usize, n: usize, g: Guarding, t: Task)
    requires { (length cells.old ≡ 22500) × ((length marks.old ≡ 2250) × (((p < 90) × (old < 90)) × ((old ≡ p → ⊥)
        × ((n < 24) × (t.phase < 27))))) }
    ensures { cells_in cells.new marks.new ≡ set (cells_in cells.old marks.old) p
        (yes_cell (rule_at (cells_in cells.old marks.old) old g)
        (get_or (cells_in cells.old marks.old) p no_cell) n t) }
{
    let test = t.test;
    cells::put_row(cells, marks, p, n, test);
    if 1 < t.phase {
        let via = via_at(cells, marks, old, g, t.phase - 2);
        cells::put_bound(cells, marks, p, t.phase - 2, via);
    }
}

// Makes of the part at place p, with n inequalities, which splits by its test, the no part there and the yes part at the next place; the
// guard found the matrix at place `old`.
pub fn halved(
    cells: &mut [i32],
    marks: &mut [u8],
    p: usize,
    old: usize,
    n: usize,
    g: Guarding,
    t: Task,
)
    requires { (length cells.old ≡ 22500) × ((length marks.old ≡ 2250) × (((p + 1 < old) × (old < 90))
        × ((n < 24) × (t.phase < 27)))) }
    ensures { cells_in cells.new marks.new
        ≡ halves_c (rule_at (cells_in cells.old marks.old) old g) (cells_in cells.old marks.old) p n
        t }
{
    cells::copy(cells, marks, p, p + 1);
    let test = t.test;
    cells::put_row(cells, marks, p, n, test.opposite());
    yes_at(cells, marks, p + 1, old, n, g, t);
}
