// Waits and resets on the matrix at a place.
ghost use Rattle.std.specs.Prelude.{◌≡◌, ◌<◌, length};
ghost use Rattle.cells.specs.Cells.{cells_in, on_matrix};
ghost use Rattle.delay.specs.Delayed.{delayed_b, reset_b, reset_if_b, resets_b};

use crate::pairs::{none_if, reset_pair};

// Makes the matrix at place p that after a wait: entries (i, 0), i ≥ 1, become none.
pub fn delayed(cells: &mut [i32], marks: &mut [u8], p: usize, clocks: usize)
    requires { (length cells.old ≡ 22500) × ((length marks.old ≡ 2250) × (p < 90)) }
    ensures { cells_in cells.new marks.new
        ≡ on_matrix (cells_in cells.old marks.old) p (delayed_b clocks) }
{
    none_if(cells, marks, p, 0 < clocks, 5);
    none_if(cells, marks, p, 1 < clocks, 10);
    none_if(cells, marks, p, 2 < clocks, 15);
    none_if(cells, marks, p, 3 < clocks, 20);
}

// Makes the matrix at place p that where clock r is reset.
fn reset(cells: &mut [i32], marks: &mut [u8], p: usize, clocks: usize, r: usize)
    requires { (length cells.old ≡ 22500) × ((length marks.old ≡ 2250) × ((p < 90) × (r < 5))) }
    ensures { cells_in cells.new marks.new
        ≡ on_matrix (cells_in cells.old marks.old) p (reset_b clocks r) }
{
    reset_pair(cells, marks, p, clocks, r, 0);
    reset_pair(cells, marks, p, clocks, r, 1);
    reset_pair(cells, marks, p, clocks, r, 2);
    reset_pair(cells, marks, p, clocks, r, 3);
    reset_pair(cells, marks, p, clocks, r, 4);
}

// The same if the clock's bit is set and there is such a clock.
fn reset_if(cells: &mut [i32], marks: &mut [u8], p: usize, clocks: usize, r: usize, bit: u8)
    requires { (length cells.old ≡ 22500) × ((length marks.old ≡ 2250) × ((p < 90) × (r < 5))) }
    ensures { cells_in cells.new marks.new
        ≡ on_matrix (cells_in cells.old marks.old) p (reset_if_b clocks r bit) }
{
    if bit == 1 {
        if r <= clocks {
            reset(cells, marks, p, clocks, r);
        }
    }
}

// Makes the matrix at place p that after the resets, in rising order: bit i - 1 for clock i.
pub fn resets(cells: &mut [i32], marks: &mut [u8], p: usize, clocks: usize, bits: u8)
    requires { (length cells.old ≡ 22500) × ((length marks.old ≡ 2250) × (p < 90)) }
    ensures { cells_in cells.new marks.new
        ≡ on_matrix (cells_in cells.old marks.old) p (resets_b clocks bits) }
{
    reset_if(cells, marks, p, clocks, 1, bits % 2);
    reset_if(cells, marks, p, clocks, 2, bits / 2 % 2);
    reset_if(cells, marks, p, clocks, 3, bits / 4 % 2);
    reset_if(cells, marks, p, clocks, 4, bits / 8 % 2);
}
