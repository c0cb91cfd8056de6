// What is counted.
ghost use Rattle.std.specs.Prelude.{◌≡◌, ◌≤◌, length, take};
ghost use Rattle.expr.specs.Records.{range_list};
ghost use Rattle.kept.specs.Stacks.{held_in, zones_in};
ghost use Rattle.valuations.specs.Valuations.{widths};

use crate::stack;
use expr::Ranges;

// How many valuations the first n zones hold, 32 at most.
pub fn kept(b: Ranges, cells: &[i32], counts: &[usize], n: usize) -> usize
    requires { (widths (range_list b) ≤ 262144) × ((length cells.now ≡ 22500) × (length counts.now ≡ 90)) }
    ensures { result ≡ held_in b (take n (zones_in cells.now counts.now)) }
{
    let s = stack::stacked(cells, counts, n);
    let mut total = 0;
    for i in 0..s.count {
        let q = s.list[i];
        let at = 250 * q.at;
        total += counting::count(b, &cells[at..], q.count.min(24));
    }
    total
}
