// A part of a zone worked on until it stops: the tests of a guard one after another.
ghost use Rattle.std.specs.Prelude.{◌≡◌, true, cond, ◌+◌, ◌<◌, ◌≤◌, min, length, get_or, set};
ghost use Rattle.parts.specs.Parts.{enters_c, tests_in};
ghost use Rattle.cells.specs.Cells.{cells_in, no_cell, with_matrix, put_bound, zone_of};
ghost use Rattle.expr.specs.declared.range.Ranges.{Ranges};
ghost use Rattle.zones.specs.Hinted.{Hinted, Trusted, found_c, noted_c};
ghost use Rattle.zones.specs.Settled.{told_settled};
ghost use Rattle.split.specs.Trees.{Live, Ran};
ghost use Rattle.running.specs.Asks.{asking_c};
ghost use Rattle.running.specs.Tasks.{part_at, rule_at};

use crate::task::{Guarding, Task};
use expr::{Bound, Test};
use settling::Verdict;
use zones::{Hint, Told};

// Where a part stops, and what is known of its zone then: where it splits, the guess may lie in one of the two parts and the other
// valuation in the other.
#[derive(Clone, Copy)]
pub struct Stop {
    pub task: Task,
    pub hint: Hint,
}

// What a phase compares, the test whether that is tighter, and where it goes then.
#[derive(Clone, Copy)]
struct Asking {
    via: Bound,
    test: Test,
    into: usize,
}

// What a guard asks at a phase of the matrix at place `old`.
fn asked_at(cells: &[i32], marks: &[u8], old: usize, g: Guarding, phase: usize) -> Asking
    requires { (length marks.now ≡ 2250) × (old < 90) }
    ensures { result ≡ asking_c (rule_at (cells_in cells.now marks.now) old g) phase }
{
    let at = constrain::places(g.left, g.right, phase);
    let bound = g.bound;
    let first = cells::bound_at(cells, marks, old, at.first);
    let last = cells::bound_at(cells, marks, old, at.last);
    let was = cells::bound_at(cells, marks, old, at.was);
    let via = constrain::via(g.clocks, phase, bound, first, last);
    Asking {
        via,
        test: via.tighter(was),
        into: at.into,
    }
}

// Whether a verdict on the test of a phase puts an entry in.
fn enters(phase: usize, kind: Told) -> bool
    ensures { result ≡ enters_c phase kind }
{
    if 1 < phase {
        return kind.is_yes();
    }
    false
}

// Puts what was compared at a phase into the matrix at place p, where the verdict says so.
fn entered(cells: &mut [i32], marks: &mut [u8], p: usize, a: Asking, phase: usize, kind: Told)
    requires { (length cells.old ≡ 22500) × ((length marks.old ≡ 2250) × ((p < 90) × (a.into < 25))) }
    ensures { cells_in cells.new marks.new
        ≡ cond (enters_c phase kind) (put_bound (cells_in cells.old marks.old) p a.into a.via)
        (cells_in cells.old marks.old) }
{
    if enters(phase, kind) {
        let via = a.via;
        cells::put_bound(cells, marks, p, a.into, via);
    }
}

// Whether a verdict is yes or no and there is nothing to remember of it: it was told without a search.
fn at_once(v: Verdict) -> bool
    ensures { result ≡ true → told_settled v.kind ≡ true }
{
    if v.searched {
        return false;
    }
    v.kind.is_settled()
}

// With what a verdict on a test says where a search told so, else with the valuation that it names.
fn learned(h: Hint, v: Verdict, t: Test) -> Hint
    ensures { result ≡ cond v.searched (noted_c h t v.kind) (found_c h v.witness) }
{
    if v.searched {
        return zones::noted(h, t, v.kind);
    }
    let witness = v.witness;
    zones::found(h, witness)
}

// How many tests were asked with one more.
fn counted(tests: usize, t: Test) -> usize
    ensures { result ≡ min tests 26 + tests_in t }
{
    tests.min(26) + parts::tests_in(t)
}

// The part at place p, with n inequalities, worked on where it stands, until it stops, whatever the ranges are that the hint was made of;
// the guard finds the matrix at place `old`. An entry past the clocks asks nothing.
pub fn run(
    cells: &mut [i32],
    marks: &mut [u8],
    p: usize,
    old: usize,
    n: usize,
    hint: Hint,
    g: Guarding,
    task: Task,
) -> Stop
    requires cells_len { (length cells.old ≡ 22500) × ((length marks.old ≡ 2250) × (((p < 90) × (old < 90)) × ((old ≡ p → ⊥) × (n ≤ 24)))) }
    requires live { Live (part_at (cells_in cells.old marks.old) p n task)
        × Trusted (zone_of n (get_or (cells_in cells.old marks.old) p no_cell)) hint }
    ensures ran { (b : Ranges) → Hinted b (zone_of n (get_or (cells_in cells.old marks.old) p no_cell)) hint
        → Ran b (rule_at (cells_in cells.old marks.old) old g)
        (part_at (cells_in cells.old marks.old) p n task)
        (part_at (cells_in cells.new marks.new) p n result.task) }
    ensures same { cells_in cells.new marks.new ≡ set (cells_in cells.old marks.old) p
        (with_matrix (get_or (cells_in cells.old marks.old) p no_cell)
        (get_or (cells_in cells.new marks.new) p no_cell).bounds) }
    ensures known { (b : Ranges) → Hinted b (zone_of n (get_or (cells_in cells.old marks.old) p no_cell)) hint
        → Hinted b (zone_of n (get_or (cells_in cells.old marks.old) p no_cell)) result.hint }
{
    if !task.halt.goes_on() {
        return Stop { task, hint };
    }
    let mut known = hint;
    let list = cells::rows_at(cells, marks, p, n);
    let mut flat = list.numbers;
    let mut test = task.test;
    let mut tests = task.tests;
    let mut phase = task.phase;
    let mut halt = task.halt;
    while halt.goes_on() {
        if constrain::outside(g.clocks, phase) {
            let next = parts::after(phase, Told::No);
            phase = next.phase;
            halt = next.halt;
        } else {
            let asked = asked_at(cells, marks, old, g, phase);
            let via = asked.via;
            let t = asked.test;
            let verdict = settling::settled(known, &mut flat, n, t);
            entered(cells, marks, p, asked, phase, verdict.kind);
            if at_once(verdict) {
                let next = parts::after(phase, verdict.kind);
                tests = counted(tests, t);
                phase = next.phase;
                halt = next.halt;
            } else {
                let more = learned(known, verdict, t);
                known = more;
                let next = parts::turned(phase, tests, test, via, t, via, verdict.kind);
                let question = next.test;
                test = question;
                tests = next.tests;
                phase = next.phase;
                halt = next.halt;
            }
        }
    }
    Stop {
        task: Task {
            phase,
            halt,
            tests,
            test,
        },
        hint: known,
    }
}
