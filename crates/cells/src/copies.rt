// Copies of places.
ghost use Rattle.std.specs.Prelude.{◌≡◌, ◌*◌, ◌<◌, length, get_or, set};
ghost use Rattle.cells.specs.Cells.{cells_in, no_cell};

// Copies the cell at place p to place q: its numbers, then its marks.
pub fn copy(cells: &mut [i32], marks: &mut [u8], p: usize, q: usize)
    requires { (length cells.old ≡ 22500) × ((length marks.old ≡ 2250) × ((p < 90) × (q < 90))) }
    ensures { cells_in cells.new marks.new
        ≡ set (cells_in cells.old marks.old) q (get_or (cells_in cells.old marks.old) p no_cell) }
{
    cells.copy_within(250 * p..250 * p + 250, 250 * q);
    marks.copy_within(25 * p..25 * p + 25, 25 * q);
}
