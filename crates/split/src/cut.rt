// One guard over a zone: the parts still to be worked on stand on a stack, the next one on top.
ghost use Rattle.std.specs.Prelude.{◌≡◌, cond, ltb};
ghost use Rattle.split.specs.Guarded.{cut_c, rule_c, one_c};
ghost use Rattle.split.specs.Listed.{refused_c};
ghost use Rattle.split.specs.Trees.{start_c, ended_c};

use crate::list;
use crate::list::Counted;
use crate::tests::run;
use constrain::Rule;
use expr::{Expr, Ranges};
use guards::Guard;
use parts::{Halt, Part};
use zones::Zone;

// The zones listed so far, after a part that stops with another number: that refusal, from 4 on.
fn stopped(out: Counted, number: usize) -> Counted
    ensures { result ≡ cond (ltb number 4) out (refused_c number out) }
{
    if number < 4 {
        return out;
    }
    list::refused(out, number)
}

// The zones listed so far, after a part that is not split: cut, it leaves them; kept, it is listed; or refused.
fn ended(out: Counted, p: Part) -> Counted
    ensures { result ≡ ended_c p out }
{
    match p.halt {
        Halt::No => out,
        Halt::Cut => out,
        Halt::Kept => list::listed(out, p.zone, p.tests),
        Halt::Split => out,
        Halt::Full => list::refused(out, 8),
        Halt::Other(number) => stopped(out, number),
    }
}

// The zone before the first test.
fn start(zone: Zone) -> Part
    ensures { result ≡ start_c zone }
{
    Part {
        phase: 0,
        halt: Halt::No,
        tests: 0,
        test: Expr::ZERO,
        zone,
    }
}

// The zones listed so far, and then the parts of a zone that a guard leaves.
fn cut_zone(b: Ranges, r: Rule, zone: Zone, out: Counted) -> Counted
    ensures { result ≡ cut_c b r zone out }
{
    if 0 < out.zones.refusal {
        return out;
    }
    let mut stack = [start(zone); 25];
    let mut now = out;
    let mut n = 1;
    // No `for`: a split puts one part more on the stack.
    while 0 < n {
        let top = n - 1;
        let popped = stack[top];
        let here = popped.zone;
        let hint = zones::hint_of(b, here, holding::first_held(b, here));
        let p = run(hint, r, popped);
        let next = ended(now, p);
        now = next;
        if 0 < now.zones.refusal {
            return now;
        }
        if p.halt.is_split() {
            let no = parts::no_part(r, p);
            let yes = parts::yes_part(r, p);
            stack[top] = no;
            stack[n] = yes;
            n += 1;
        } else {
            n = top;
        }
    }
    now
}

// The rule of a guard for a zone's matrix.
fn rule(clocks: usize, g: Guard, zone: Zone) -> Rule
    ensures { result ≡ rule_c clocks g zone }
{
    let old = zone.bounds;
    let bound = g.bound;
    Rule {
        clocks,
        left: g.left as usize,
        right: g.right as usize,
        bound,
        old,
    }
}

// What a guard leaves of one zone at a visit, each zone with the tests that were asked on the way to it.
pub fn cut_one(b: Ranges, clocks: usize, g: Guard, visit: usize, zone: Zone) -> Counted
    ensures { result ≡ one_c b clocks g visit zone }
{
    cut_zone(b, rule(clocks, g, zone), zone, list::none_at(visit))
}
