// Where a pass over zones stands, and how it goes on.
ghost use Rattle.std.specs.Prelude.{◌≡◌, ◌<◌};
ghost use Rattle.passing.specs.State.{begun_c, pushed_c, listed_c, dropped_c, loaded_c, passed_c, visit_after_c, stepped_c, number_c};

use parts::Halt;
use steps::Step;

// Where a pass stands: at step j, of whose n zones the first i are taken up, `kept` are listed so far, and `depth` parts wait; and at
// which visit.
#[derive(Clone, Copy)]
pub struct Pass {
    pub j: usize,
    pub n: usize,
    pub i: usize,
    pub kept: usize,
    pub depth: usize,
    pub visit: usize,
}

// Before the first step on n zones.
pub fn begun(visit: usize, n: usize) -> Pass
    ensures { result ≡ begun_c visit n }
{
    Pass {
        j: 0,
        n,
        i: 0,
        kept: 0,
        depth: 0,
        visit,
    }
}

// With one more part, after a split.
pub fn pushed(s: Pass) -> Pass
    requires { s.depth < 25 }
    ensures { result ≡ pushed_c s }
{
    let mut r = s;
    r.depth = s.depth + 1;
    r
}

// With one part less, which is listed.
pub fn listed(s: Pass) -> Pass
    requires { s.kept < 32 }
    ensures { result ≡ listed_c s }
{
    let mut r = s;
    r.kept = s.kept + 1;
    r.depth = s.depth.saturating_sub(1);
    r
}

// With one part less, which is cut.
pub fn dropped(s: Pass) -> Pass
    ensures { result ≡ dropped_c s }
{
    let mut r = s;
    r.depth = s.depth.saturating_sub(1);
    r
}

// With one zone more taken up, as the only part.
pub fn loaded(s: Pass) -> Pass
    requires { s.i < 32 }
    ensures { result ≡ loaded_c s }
{
    let mut r = s;
    r.i = s.i + 1;
    r.depth = 1;
    r
}

// With one zone more taken up, which is listed where it stands.
pub fn passed_by(s: Pass) -> Pass
    requires { (s.i < 32) × (s.kept < 32) }
    ensures { result ≡ passed_c s }
{
    let mut r = s;
    r.i = s.i + 1;
    r.kept = s.kept + 1;
    r
}

// The visit after a step: resets make the move.
fn visit_after(step: Step, visit: usize) -> usize
    ensures { result ≡ visit_after_c step visit }
{
    match step {
        Step::Resets { visit: made, .. } => made,
        _ => visit,
    }
}

// At the next step, which finds the zones that are listed.
pub fn stepped(s: Pass, step: Step) -> Pass
    requires { s.j < 20 }
    ensures { result ≡ stepped_c s step }
{
    Pass {
        j: s.j + 1,
        n: s.kept,
        i: 0,
        kept: 0,
        depth: 0,
        visit: visit_after(step, s.visit),
    }
}

// The refusal that a part which stopped so means after so many zones, or 0: a 33rd zone (7), a 25th inequality (8), or its own number.
#[tactic(auto, unfolding(crate::specs::State::number_c))]
pub fn number(halt: Halt, kept: usize) -> usize
    ensures { result ≡ number_c halt kept }
{
    match halt {
        Halt::No => 0,
        Halt::Cut => 0,
        Halt::Kept => {
            if kept < 32 {
                return 0;
            }
            7
        }
        Halt::Split => 0,
        Halt::Full => 8,
        Halt::Other(number) => {
            if number < 4 {
                return 0;
            }
            number
        }
    }
}
