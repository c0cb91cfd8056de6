// A step put to a zone (paper: piece) where it stands (crate cells): most steps leave one zone of it, which stays there.
#![tactic(auto)]

ghost use Rattle.std.specs.Prelude.{◌≡◌, ◌<◌, ◌≤◌, length, get_or, true, false};
ghost use Rattle.cells.specs.Cells.{cells_in, no_cell, zone_of};
ghost use Rattle.steps.specs.Steps.{asks_c};
ghost use Rattle.zones.specs.Hinted.{Trusted};
ghost use Rattle.staying.specs.Stays.{Stays};

use guards::Guard;
use running::Task;
use steps::Step;
use zones::Hint;

// Whether one zone is left, which stands where the zone stood, and what is known of it; if not, the zone is as it was. The hint is told in
// both cases, so that `kept` is no Option: what a search has learnt counts for the zone that is put back too.
#[derive(Clone, Copy)]
pub struct Stood {
    pub kept: bool,
    pub hint: Hint,
}

// A guard put to the zone at place p, with n inequalities, whose matrix is copied to place 89 and, unless one zone is left, back again.
fn guarded(
    cells: &mut [i32],
    marks: &mut [u8],
    p: usize,
    clocks: usize,
    guard: Guard,
    n: usize,
    hint: Hint,
) -> Stood
    requires cells_len { (length cells.old ≡ 22500) × ((length marks.old ≡ 2250) × ((p < 64)
        × ((n ≤ 24) × (asks_c (Step.Guard guard) ≡ true)))) }
    requires known { Trusted (zone_of n (get_or (cells_in cells.old marks.old) p no_cell)) hint }
    ensures { Stays (cells_in cells.old marks.old) (cells_in cells.new marks.new) p clocks
        (Step.Guard guard) n hint result }
{
    cells::copy(cells, marks, p, 89);
    let stop = running::run(
        cells,
        marks,
        p,
        89,
        n,
        hint,
        running::of_guard(clocks, guard),
        Task::START,
    );
    let hint = stop.hint;
    let task = stop.task;
    if task.halt.is_kept() {
        return Stood { kept: true, hint };
    }
    cells::copy(cells, marks, 89, p);
    Stood { kept: false, hint }
}

// A step put to the zone at place p, with n inequalities, if it is to stay `here`.
pub fn stay(
    cells: &mut [i32],
    marks: &mut [u8],
    p: usize,
    clocks: usize,
    step: Step,
    n: usize,
    hint: Hint,
    here: bool,
) -> Stood
    requires cells_len { (length cells.old ≡ 22500) × ((length marks.old ≡ 2250) × ((p < 64) × (n ≤ 24))) }
    requires known { Trusted (zone_of n (get_or (cells_in cells.old marks.old) p no_cell)) hint }
    ensures stays { Stays (cells_in cells.old marks.old) (cells_in cells.new marks.new) p clocks
        step n hint result }
    ensures so { here ≡ false → result.kept ≡ false }
{
    if here {
        if let Some(guard) = steps::asked(step) {
            if idle::idle(hint, step, cells, marks, p) {
                return Stood { kept: true, hint };
            }
            return guarded(cells, marks, p, clocks, guard, n, hint);
        }
        steps::changed(cells, marks, p, clocks, step);
        return Stood { kept: true, hint };
    }
    Stood { kept: false, hint }
}
