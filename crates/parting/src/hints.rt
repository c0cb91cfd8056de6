// What is known of a part.
ghost use Rattle.std.specs.Prelude.{◌≡◌, ◌<◌, ◌≤◌, length, get_or};
ghost use Rattle.cells.specs.Cells.{cells_in, no_cell, zone_of};
ghost use Rattle.expr.specs.Records.{range_list};
ghost use Rattle.systems.specs.Boxes.{Narrows};
ghost use Rattle.zones.specs.Hinted.{exprs_of, Guessed};

use expr::Ranges;
use zones::Hint;

// What is known of the zone at place p, with n inequalities, of these ranges, of another one's hint: the nogoods are taken over; the guess
// is the other valuation where the zone's inequalities hold there, else the guess, and it is sure where the zone holds it.
pub fn hint_at(b: Ranges, cells: &[i32], marks: &[u8], p: usize, n: usize, was: Hint) -> Hint
    requires { (length cells.now ≡ 22500) × ((p < 90) × (n ≤ 24)) }
    ensures narrows { Narrows (exprs_of (zone_of n (get_or (cells_in cells.now marks.now) p no_cell))) (range_list b)
        (range_list result.ranges) }
    ensures held { Guessed (zone_of n (get_or (cells_in cells.now marks.now) p no_cell)) result }
    ensures same { result.nogoods ≡ was.nogoods }
{
    let rows = cells::rows_at(cells, marks, p, n);
    let ranges = search::narrowed(b, &rows.numbers, n);
    let other = was.other;
    let guess = zones::better(search::meets(other, &rows.numbers, n), was.guess, other);
    let sure = zones::holds(ranges, guess, &rows.numbers, n);
    let nogoods = was.nogoods;
    Hint {
        ranges,
        guess,
        sure,
        other,
        nogoods,
    }
}
