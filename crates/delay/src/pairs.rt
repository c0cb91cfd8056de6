// Entries that a wait or a reset changes. Entry 5i + j bounds clock i - clock j.
ghost use Rattle.std.specs.Prelude.{◌≡◌, ◌<◌, length};
ghost use Rattle.cells.specs.Cells.{cells_in, on_matrix};
ghost use Rattle.delay.specs.Delayed.{none_if, move_b, reset_pair};

use expr::Bound;

// Makes entry x of the matrix at place p none, if there is such a clock.
pub(crate) fn none_if(cells: &mut [i32], marks: &mut [u8], p: usize, there: bool, x: usize)
    requires { (length cells.old ≡ 22500) × ((length marks.old ≡ 2250) × ((p < 90) × (x < 25))) }
    ensures { cells_in cells.new marks.new
        ≡ on_matrix (cells_in cells.old marks.old) p (none_if there x) }
{
    if there {
        cells::put_bound(cells, marks, p, x, Bound::NONE);
    }
}

// Copies entry x of the matrix at place p to entry y.
fn moved(cells: &mut [i32], marks: &mut [u8], p: usize, x: usize, y: usize)
    requires { (length cells.old ≡ 22500) × ((length marks.old ≡ 2250) × ((p < 90) × ((x < 25) × (y < 25)))) }
    ensures { cells_in cells.new marks.new
        ≡ on_matrix (cells_in cells.old marks.old) p (move_b x y) }
{
    let b = cells::bound_at(cells, marks, p, x);
    cells::put_bound(cells, marks, p, y, b);
}

// Where clock r is reset, (r, j) takes (0, j) and (j, r) takes (j, 0), for another clock j that there is.
pub(crate) fn reset_pair(
    cells: &mut [i32],
    marks: &mut [u8],
    p: usize,
    clocks: usize,
    r: usize,
    j: usize,
)
    requires { (length cells.old ≡ 22500) × ((length marks.old ≡ 2250) × ((p < 90) × ((r < 5) × (j < 5)))) }
    ensures { cells_in cells.new marks.new
        ≡ on_matrix (cells_in cells.old marks.old) p (reset_pair clocks r j) }
{
    if j <= clocks {
        if j == r {
            return;
        }
        moved(cells, marks, p, j, 5 * r + j);
        moved(cells, marks, p, 5 * j, 5 * j + r);
    }
}
