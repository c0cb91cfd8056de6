// Zones in order with their counts of tests: none yet, one more, or a refusal.
ghost use Rattle.std.specs.Prelude.{◌≡◌};
ghost use Rattle.split.specs.Listed.{none_at, refused_c, list_c};

use zones::{Zone, Zones};

// Zones that a guard lists, or its refusal; and for each of them, at the same place, how many tests were asked on the way to it, from
// the guard's first test on. Past the zones, and with a refusal, the counts are 0.
#[derive(Clone, Copy)]
pub struct Counted {
    pub zones: Zones,
    pub tests: [usize; 32],
}

// No zones yet, at a visit.
pub(crate) fn none_at(visit: usize) -> Counted
    ensures { result ≡ none_at visit }
{
    let zones = Zones {
        refusal: 0,
        visit,
        count: 0,
        list: [Zone::BLANK; 32],
    };
    Counted {
        zones,
        tests: [0; 32],
    }
}

// Refused by a number, unless it was refused before.
pub(crate) fn refused(out: Counted, number: usize) -> Counted
    ensures { result ≡ refused_c number out }
{
    if out.zones.refusal == 0 {
        let zones = Zones {
            refusal: number,
            visit: out.zones.visit,
            count: 0,
            list: [Zone::BLANK; 32],
        };
        return Counted {
            zones,
            tests: [0; 32],
        };
    }
    out
}

// One more zone, with its count of tests, unless it would be the 33rd (refusal 7).
pub(crate) fn listed(out: Counted, zone: Zone, tests: usize) -> Counted
    ensures { result ≡ list_c zone tests out }
{
    if 0 < out.zones.refusal {
        return out;
    }
    let n = out.zones.count;
    if n < 32 {
        let mut zones = out.zones;
        let mut counts = out.tests;
        zones.list[n] = zone;
        zones.count = n + 1;
        counts[n] = tests;
        return Counted {
            zones,
            tests: counts,
        };
    }
    refused(out, 7)
}
