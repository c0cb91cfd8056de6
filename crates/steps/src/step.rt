// A step, lists of steps, and what a step makes of one zone before its tests.
ghost use Rattle.std.specs.Prelude.{◌≡◌, ◌<◌, length, take};
ghost use Rattle.cells.specs.Cells.{cells_in, on_matrix};
ghost use Rattle.steps.specs.Steps.{asked_c, with_step_c, with_guards_c};
ghost use Rattle.steps.specs.Taken.{changed_b, task_c, taken_c};

use guards::Guard;
use running::Task;

// A step: a wait, a guard, or the resets of a transition, with which its move is made: the visit is then the one given.
#[derive(Clone, Copy)]
pub enum Step {
    Delay,
    Guard(Guard),
    Resets { bits: u8, visit: usize },
}

// Steps in order, the first `count` of the list; what lies past them does not matter.
#[derive(Clone, Copy)]
pub struct Steps {
    pub count: usize,
    pub list: [Step; 20],
}

impl Steps {
    // No steps.
    pub const NONE: Steps = Steps {
        count: 0,
        list: [Step::Delay; 20],
    };
}

// The steps and one more; a list of 20 stays as it is.
#[tactic(auto, unfolding(crate::specs::Steps::with_step_c))]
pub fn with_step(steps: Steps, step: Step) -> Steps
    ensures { result ≡ with_step_c steps step }
{
    let n = steps.count;
    if n < 20 {
        let mut more = steps;
        more.list[n] = step;
        more.count = n + 1;
        return more;
    }
    steps
}

// The steps and the first count guards, in order.
pub fn with_guards(steps: Steps, count: usize, guards: [Guard; 6]) -> Steps
    ensures { result ≡ with_guards_c steps (take count guards) }
{
    let n = count.min(6);
    let mut more = steps;
    for guard in &guards[..n] {
        let at = more.count;
        if 20 <= at {
            return more;
        }
        more.list[at] = Step::Guard(*guard);
        more.count = at + 1;
    }
    more
}

// Makes the matrix at place p that after a wait or resets; a guard is put to it later.
#[tactic(auto, unfolding(crate::specs::Taken::changed_b))]
pub fn changed(cells: &mut [i32], marks: &mut [u8], p: usize, clocks: usize, step: Step)
    requires { (length cells.old ≡ 22500) × ((length marks.old ≡ 2250) × (p < 90)) }
    ensures { cells_in cells.new marks.new
        ≡ on_matrix (cells_in cells.old marks.old) p (changed_b step clocks) }
{
    match step {
        Step::Delay => delay::delayed(cells, marks, p, clocks),
        Step::Guard(_) => {}
        Step::Resets { bits, .. } => delay::resets(cells, marks, p, clocks, bits),
    }
}

// The guard of a step, if it is a guard of clocks that there can be.
#[tactic(auto, unfolding(crate::specs::Steps::asks_c))]
pub fn asked(step: Step) -> Option<Guard>
    ensures { result ≡ asked_c step }
{
    match step {
        Step::Guard(guard) if guard.left < 5 && guard.right < 5 => Some(guard),
        _ => None,
    }
}

// What a step makes of a zone, but for its numbers: for a guard the part before the first test, else one that is kept. A guard without
// such a clock leaves it.
fn task_of(step: Step) -> Task
    ensures { result ≡ task_c step }
{
    match asked(step) {
        Some(_) => Task::START,
        None => Task::KEPT,
    }
}

// Takes the zone at place p up: it is copied to place 89, where a guard finds its matrix, and to place 64, where it becomes the part that
// a step makes of it.
pub fn taken(cells: &mut [i32], marks: &mut [u8], p: usize, clocks: usize, step: Step) -> Task
    requires { (length cells.old ≡ 22500) × ((length marks.old ≡ 2250) × (p < 64)) }
    ensures value { result ≡ task_c step }
    ensures placed { cells_in cells.new marks.new
        ≡ taken_c (cells_in cells.old marks.old) p clocks step }
{
    cells::copy(cells, marks, p, 89);
    cells::copy(cells, marks, p, 64);
    changed(cells, marks, 64, clocks, step);
    task_of(step)
}
