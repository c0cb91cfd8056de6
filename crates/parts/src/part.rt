// A part of a zone on its way through the tests of a guard.
ghost use Rattle.std.specs.Prelude.{cond, ◌≡◌, ◌<◌};
ghost use Rattle.constrain.specs.Rules.{via_c};
ghost use Rattle.constrain.specs.RuleLaws.{read_c};
ghost use Rattle.parts.specs.Parts.{goes_on, is_kept, is_split, standing, put_c, pushed_c, answered_c, tests_in};
ghost use Rattle.parts.specs.Parts.{halt_of, stopped_by, next, settled_n, after_c, enters_c, question_c, turn_c, yes_c, no_c};
ghost use Rattle.zones.specs.Settled.{told_settled};

use constrain::Rule;
use expr::{Bound, Expr, Test};
use zones::{Told, Zone};

// Where a part stops: nowhere yet, it goes on; it is cut; it is kept; it splits by the test; or it would, with a 25th inequality; or with
// another number, which a test's verdict was.
#[derive(Clone, Copy, PartialEq, Eq)]
pub enum Halt {
    No,
    Cut,
    Kept,
    Split,
    Full,
    Other(usize),
}

// Where a part of a number stops: 0 is that it goes on, 1 that it is cut, 2 that it is kept, 3 that it splits, 8 that it would.
impl From<usize> for Halt {
    ghost from_gives = { λ number halt. halt ≡ halt_of number };

    fn from(number: usize) -> Halt {
        match number {
            0 => Halt::No,
            1 => Halt::Cut,
            2 => Halt::Kept,
            3 => Halt::Split,
            8 => Halt::Full,
            _ => Halt::Other(number),
        }
    }
}

impl Halt {
    // Whether it goes on.
    pub fn goes_on(self) -> bool
        ensures { result ≡ goes_on self }
    {
        self == Halt::No
    }

    // Whether it is kept.
    pub fn is_kept(self) -> bool
        ensures { result ≡ is_kept self }
    {
        self == Halt::Kept
    }

    // Whether it splits.
    pub fn is_split(self) -> bool
        ensures { result ≡ is_split self }
    {
        self == Halt::Split
    }
}

// A part: the test that comes next (27: none); where it stops; how many tests were asked on its way; and its zone, whose matrix is the
// new one.
#[derive(Clone, Copy)]
pub struct Part {
    pub phase: usize,
    pub halt: Halt,
    pub tests: usize,
    pub test: Expr,
    pub zone: Zone,
}

// Where a part stands after a test: the next phase, and where it stops.
#[derive(Clone, Copy)]
pub struct Next {
    pub phase: usize,
    pub halt: Halt,
}

// The part at a phase, going on or halted.
fn at(p: Part, phase: usize, halt: Halt) -> Part
    ensures { result ≡ standing p phase halt }
{
    let zone = p.zone;
    let test = p.test;
    Part {
        phase,
        halt,
        tests: p.tests,
        test,
        zone,
    }
}

// The part with an entry put in.
fn put(p: Part, x: usize, b: Bound) -> Part
    requires { x < 25 }
    ensures { result ≡ put_c p x b }
{
    let mut zone = p.zone;
    let test = p.test;
    zone.bounds[x] = b;
    Part {
        phase: p.phase,
        halt: p.halt,
        tests: p.tests,
        test,
        zone,
    }
}

// Entry x of the matrix that a rule finds; outside it zero, not strict.
fn entry(r: Rule, x: usize) -> Bound
    ensures { result ≡ read_c r.old x }
{
    let b = r.old[x.min(24)];
    constrain::inside(x, b)
}

// What the entry x takes where it is tighter: (k, i) + e + (j, l), two sums from the left.
fn via(r: Rule, x: usize) -> Bound
    requires { x < 25 }
    ensures { result ≡ via_c r x }
{
    let at = constrain::places(r.left, r.right, x + 2);
    let bound = r.bound;
    let first = entry(r, at.first);
    first.sum(bound).sum(entry(r, at.last))
}

// The part with the entry x put in where it is tighter.
fn entered(r: Rule, p: Part, x: usize, yes: bool) -> Part
    ensures { result ≡ cond yes (put_c p x (via_c r x)) p }
{
    if yes {
        if x < 25 {
            return put(p, x, via(r, x));
        }
    }
    p
}

// The part after the test of the entry x: the entry is put in, or not; after the last one the part is kept.
fn pushed(r: Rule, p: Part, x: usize, yes: bool) -> Part
    ensures { result ≡ pushed_c r p x yes }
{
    let q = entered(r, p, x, yes);
    if x < 24 {
        return at(q, x + 3, Halt::No);
    }
    at(q, 27, Halt::Kept)
}

// The part after the answer to its test.
fn answered(r: Rule, p: Part, yes: bool) -> Part
    ensures { result ≡ answered_c r p yes }
{
    if p.phase < 1 {
        if yes {
            return at(p, 27, Halt::Cut);
        }
        return at(p, 1, Halt::No);
    }
    if p.phase < 2 {
        if yes {
            return at(p, 2, Halt::No);
        }
        return at(p, 27, Halt::Kept);
    }
    pushed(r, p, p.phase - 2, yes)
}

// How many tests a test is: an answer that comes without asking is none.
pub fn tests_in(test: Test) -> usize
    ensures { result ≡ tests_in test }
{
    match test {
        Test::Yes => 0,
        Test::No => 0,
        Test::Ask(_) => 1,
    }
}

// The phase after the answer to the test of a phase, and whether the part goes on.
fn settled(phase: usize, yes: bool) -> Next
    ensures { result ≡ settled_n phase yes }
{
    if phase < 1 {
        if yes {
            return Next {
                phase: 27,
                halt: Halt::Cut,
            };
        }
        return Next {
            phase: 1,
            halt: Halt::No,
        };
    }
    if phase < 2 {
        if yes {
            return Next {
                phase: 2,
                halt: Halt::No,
            };
        }
        return Next {
            phase: 27,
            halt: Halt::Kept,
        };
    }
    if phase < 26 {
        return Next {
            phase: phase + 1,
            halt: Halt::No,
        };
    }
    Next {
        phase: 27,
        halt: Halt::Kept,
    }
}

// The phase where a verdict of another number stops a part; 2 is the number of one that is kept.
fn stopped(phase: usize, number: usize) -> Next
    ensures { result ≡ next phase (stopped_by number) }
{
    if number == 2 {
        return Next {
            phase,
            halt: Halt::Kept,
        };
    }
    Next {
        phase,
        halt: Halt::Other(number),
    }
}

// The phase after a verdict on the test of a phase, and whether the part goes on: it stops at a test that is not settled.
pub fn after(phase: usize, kind: Told) -> Next
    ensures { result ≡ after_c phase kind }
{
    match kind {
        Told::No => settled(phase, false),
        Told::Yes => settled(phase, true),
        Told::Split => Next {
            phase,
            halt: Halt::Split,
        },
        Told::Full => Next {
            phase,
            halt: Halt::Full,
        },
        Told::Other(number) => stopped(phase, number),
    }
}

// An entry after a verdict on the test of a phase: what was compared, where the phase is an entry's and the verdict is yes.
fn entry_after(phase: usize, kind: Told, via: Bound, was: Bound) -> Bound
    ensures { result ≡ cond (enters_c phase kind) via was }
{
    if 1 < phase {
        if kind.is_yes() {
            return via;
        }
    }
    was
}

// The question that a part stops at, where the verdict on its test t is that, zero if it asked nothing; else what it was.
fn question_after(kind: Told, t: Test, was: Expr) -> Expr
    ensures { result ≡ cond (told_settled kind) was (question_c t) }
{
    if kind.is_settled() {
        return was;
    }
    match t {
        Test::Yes => Expr::ZERO,
        Test::No => Expr::ZERO,
        Test::Ask(e) => e,
    }
}

// What a turn of a part makes of it: its phase, where it stops, its tests and its question, as in `Part`; and the entry that the phase may
// put in.
#[derive(Clone, Copy)]
pub struct Turn {
    pub phase: usize,
    pub halt: Halt,
    pub tests: usize,
    pub test: Expr,
    pub entry: Bound,
}

// A part of this phase, with so many tests and this question, after the verdict `kind` on the test t, which compares via; the entry that
// the phase may put in is `was`. A part that goes on has asked 26 tests at most, one in each phase before the last.
pub fn turned(
    phase: usize,
    tests: usize,
    test: Expr,
    was: Bound,
    t: Test,
    via: Bound,
    kind: Told,
) -> Turn
    ensures { result ≡ turn_c phase tests test was t via kind }
{
    let next = after(phase, kind);
    Turn {
        phase: next.phase,
        halt: next.halt,
        tests: tests.min(26) + tests_in(t),
        test: question_after(kind, t, test),
        entry: entry_after(phase, kind, via, was),
    }
}

// The yes part of a split.
pub fn yes_part(r: Rule, p: Part) -> Part
    ensures { result ≡ yes_c r p }
{
    let zone = p.zone;
    let test = p.test;
    let more = zones::with_inequality(zone, test);
    let part = Part {
        phase: p.phase,
        halt: Halt::No,
        tests: p.tests,
        test,
        zone: more,
    };
    answered(r, part, true)
}

// Its no part.
pub fn no_part(r: Rule, p: Part) -> Part
    ensures { result ≡ no_c r p }
{
    let zone = p.zone;
    let test = p.test;
    let more = zones::with_opposite(zone, test);
    let part = Part {
        phase: p.phase,
        halt: Halt::No,
        tests: p.tests,
        test,
        zone: more,
    };
    answered(r, part, false)
}
