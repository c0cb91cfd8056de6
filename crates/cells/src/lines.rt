// Rows: inequalities of a place.
ghost use Rattle.std.specs.Prelude.{◌≡◌, ◌∷◌, map, ◌+◌, ◌*◌, ◌<◌, ◌≤◌, length, get_or, take};
ghost use Rattle.expr.specs.Records.{four, affine};
ghost use Rattle.inequalities.specs.Flat.{exprs_in, put_from};
ghost use Rattle.cells.specs.Cells.{cells_in, no_cell, put_ineq};

use expr::Expr;

// The first inequalities of a place in a list of their own, with room for one more.
#[derive(Clone, Copy)]
pub struct Rows {
    pub numbers: [i32; 125],
}

// Writes e as row r.
pub(crate) fn put(cells: &mut [i32], r: usize, e: Expr)
    requires { 5 * r + 5 ≤ length cells.old }
    ensures { cells.new ≡ put_from cells.old (5 * r) (e.constant ∷ four e.coefs) }
{
    inequalities::put(cells, 5 * r, e);
}

// Writes e as inequality k of place p.
pub fn put_row(cells: &mut [i32], marks: &[u8], p: usize, k: usize, e: Expr)
    requires { (length cells.old ≡ 22500) × ((p < 90) × (k < 24)) }
    ensures { cells_in cells.new marks.now
        ≡ put_ineq (cells_in cells.old marks.now) p k e }
{
    put(cells, 50 * p + k, e);
}

// The first n inequalities of place p.
pub fn rows_at(cells: &[i32], marks: &[u8], p: usize, n: usize) -> Rows
    requires { (length cells.now ≡ 22500) × ((p < 90) × (n ≤ 24)) }
    ensures { exprs_in result.numbers n
        ≡ map affine (take n (get_or (cells_in cells.now marks.now) p no_cell).ineqs) }
{
    let mut numbers = [0i32; 125];
    let m = 5 * n;
    let at = 250 * p;
    numbers[..m].copy_from_slice(&cells[at..at + m]);
    Rows { numbers }
}
