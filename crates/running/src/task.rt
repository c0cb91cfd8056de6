// Parts and guards without their numbers, which stand in cells.
ghost use Rattle.std.specs.Prelude.{◌≡◌};
ghost use Rattle.running.specs.Tasks.{answered_t, guarding_c};

use expr::{Bound, Expr};
use guards::Guard;
use parts::Halt;
use zones::Told;

// A part but for its zone: the test that comes next (27: none); where it stops; how many tests were asked on its way; and the test that it
// splits by.
#[derive(Clone, Copy)]
pub struct Task {
    pub phase: usize,
    pub halt: Halt,
    pub tests: usize,
    pub test: Expr,
}

// A guard left - right with a bound, for a sheet's clocks.
#[derive(Clone, Copy)]
pub struct Guarding {
    pub clocks: usize,
    pub left: usize,
    pub right: usize,
    pub bound: Bound,
}

impl Task {
    // Before the first test.
    pub const START: Task = Task {
        phase: 0,
        halt: Halt::No,
        tests: 0,
        test: Expr::ZERO,
    };

    // Kept as it is.
    pub const KEPT: Task = Task {
        phase: 27,
        halt: Halt::Kept,
        tests: 0,
        test: Expr::ZERO,
    };
}

// A guard for a sheet's clocks.
pub fn of_guard(clocks: usize, g: Guard) -> Guarding
    ensures { result ≡ guarding_c clocks g }
{
    let bound = g.bound;
    Guarding {
        clocks,
        left: g.left as usize,
        right: g.right as usize,
        bound,
    }
}

// A part after the verdict on its test.
pub fn answered(t: Task, kind: Told) -> Task
    ensures { result ≡ answered_t t kind }
{
    let next = parts::after(t.phase, kind);
    let test = t.test;
    Task {
        phase: next.phase,
        halt: next.halt,
        tests: t.tests,
        test,
    }
}
