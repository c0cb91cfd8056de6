// Guards (paper: limits) that are seen to leave a zone (paper: piece) as it is, without a search: most do.
#![tactic(auto)]

ghost use Rattle.std.specs.Prelude.{◌≡◌, true, ℕ, ◌<◌, length, get_or};
ghost use Rattle.cells.specs.Cells.{cells_in, no_cell, zone_of};
ghost use Rattle.expr.specs.declared.range.Ranges.{Ranges};
ghost use Rattle.zones.specs.Hinted.{Hinted};
ghost use Rattle.idle.specs.Idle.{Fails, Idle};

use expr::{Bound, Test};
use steps::Step;
use zones::Hint;

// Whether a test is seen to fail: nothing is asked and the answer is no, or what is asked is below 0 throughout the hint's ranges.
fn fails(hint: Hint, test: Test) -> bool
    ensures { result ≡ true → Fails hint test }
{
    match test {
        Test::Yes => false,
        Test::No => true,
        Test::Ask(e) => narrowing::best(hint.ranges, e) < 0,
    }
}

// Whether a step is seen to leave the zone at place p as it is: a guard that neither cuts nor tightens it.
pub fn idle(hint: Hint, step: Step, cells: &[i32], marks: &[u8], p: usize) -> bool
    requires { (length marks.now ≡ 2250) × (p < 90) }
    ensures { result ≡ true → (n : ℕ) (b : Ranges)
        → Hinted b (zone_of n (get_or (cells_in cells.now marks.now) p no_cell))
        hint → (w : ℕ) → Idle b w step (zone_of n (get_or (cells_in cells.now marks.now) p no_cell)) }
{
    let Some(guard) = steps::asked(step) else {
        return false;
    };
    let left = usize::from(guard.left);
    let right = usize::from(guard.right);
    let bound = guard.bound;
    let back = cells::bound_at(cells, marks, p, 5 * right + left);
    if fails(hint, bound.sum(back).tighter(Bound::ZERO)) {
        let there = cells::bound_at(cells, marks, p, 5 * left + right);
        return fails(hint, bound.tighter(there));
    }
    false
}
