// The halves of a split.
ghost use Rattle.std.specs.Prelude.{◌≡◌, true, ◌*◌, ◌<◌, length};
ghost use Rattle.cells.specs.Cells.{rows_from};
ghost use Rattle.siblings.specs.Siblings.{Siblings};

use crate::same;

// Whether the first n inequalities of the zones at places p and q are those of one zone with n - 1, and a test or its opposite.
pub fn siblings(cells: &[i32], p: usize, q: usize, n: usize) -> bool
    requires { (length cells.now ≡ 22500) × ((p < 90) × (q < 90)) }
    ensures { result ≡ true → Siblings (rows_from cells.now (50 * p) 24) (rows_from cells.now (50 * q) 24) n }
{
    if n == 0 {
        return false;
    }
    if 24 < n {
        return false;
    }
    let e = inequalities::inequality(cells, 50 * p + n - 1);
    let f = inequalities::inequality(cells, 50 * q + n - 1);
    if opposites::halves(e, f) {
        return same::same(cells, 250 * p, 250 * q, 5 * (n - 1));
    }
    false
}
