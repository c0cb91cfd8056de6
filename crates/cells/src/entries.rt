// Entries of the matrix at a place.
ghost use Rattle.std.specs.Prelude.{◌≡◌, cond, ◌<◌, length, get_or, set};
ghost use Rattle.constrain.specs.RuleLaws.{read_c};
ghost use Rattle.cells.specs.Cells.{cells_in, no_cell, put_bound, mark_of};

use crate::lines::put;
use expr::Bound;

// A mark: whether an entry is none, and whether it is strict.
fn mark_of(b: Bound) -> u8
    ensures { result ≡ mark_of b }
{
    if b.none {
        if b.strict {
            return 3;
        }
        return 2;
    }
    if b.strict {
        return 1;
    }
    0
}

// Entry k of the matrix at place p; outside the matrix zero, not strict.
pub fn bound_at(cells: &[i32], marks: &[u8], p: usize, k: usize) -> Bound
    requires { (length marks.now ≡ 2250) × (p < 90) }
    ensures { result ≡ read_c (get_or (cells_in cells.now marks.now) p no_cell).bounds k }
{
    if k < 25 {
        let mark = marks[25 * p + k];
        return Bound {
            none: 1 < mark,
            strict: mark % 2 == 1,
            expr: inequalities::inequality(cells, 50 * p + 25 + k),
        };
    }
    Bound::ZERO
}

// Writes b as entry k of the matrix at place p.
pub fn put_bound(cells: &mut [i32], marks: &mut [u8], p: usize, k: usize, b: Bound)
    requires { (length cells.old ≡ 22500) × ((length marks.old ≡ 2250) × ((p < 90) × (k < 25))) }
    ensures { cells_in cells.new marks.new
        ≡ put_bound (cells_in cells.old marks.old) p k b }
{
    let mark = mark_of(b);
    marks[25 * p + k] = mark;
    let e = b.expr;
    put(cells, 50 * p + 25 + k, e);
}
