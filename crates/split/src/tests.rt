// A part of a zone worked on until it stops: the tests of a guard one after another.
ghost use Rattle.expr.specs.declared.range.Ranges.{Ranges};
ghost use Rattle.zones.specs.Hinted.{Hinted, Trusted};
ghost use Rattle.split.specs.Trees.{Live, Ran};

use constrain::Rule;
use parts::Part;
use zones::{Hint, Told, Zone};

// The part where it stops, whatever the ranges are that the hint was made of; an entry past the clocks asks nothing.
pub(crate) fn run(hint: Hint, r: Rule, p: Part) -> Part
    requires { Live p × Trusted p.zone hint }
    ensures { (b : Ranges) → Hinted b p.zone hint → Ran b r p result }
{
    if !p.halt.goes_on() {
        return p;
    }
    let zone = p.zone;
    let list = zones::flat_of(zone);
    let mut flat = list.numbers;
    let matrix = r.old;
    let old = constrain::framed_of(matrix);
    let bound = r.bound;
    let mut new = zone.bounds;
    let mut test = p.test;
    let mut tests = p.tests;
    let mut phase = p.phase;
    let mut halt = p.halt;
    while halt.goes_on() {
        if constrain::outside(r.clocks, phase) {
            let next = parts::after(phase, Told::No);
            phase = next.phase;
            halt = next.halt;
        } else {
            let at = constrain::places(r.left, r.right, phase);
            let f = at.first;
            let first = old.entries[f];
            let l = at.last;
            let last = old.entries[l];
            let w = at.was;
            let was = old.entries[w];
            let via = constrain::via(r.clocks, phase, bound, first, last);
            let t = via.tighter(was);
            let verdict = settling::settled(hint, &mut flat, list.count, t);
            let x = at.into;
            let kept = new[x];
            let next = parts::turned(phase, tests, test, kept, t, via, verdict.kind);
            let entry = next.entry;
            new[x] = entry;
            let question = next.test;
            test = question;
            tests = next.tests;
            phase = next.phase;
            halt = next.halt;
        }
    }
    let ineqs = zone.ineqs;
    let left = Zone {
        count: zone.count,
        ineqs,
        bounds: new,
    };
    Part {
        phase,
        halt,
        tests,
        test,
        zone: left,
    }
}
