// Zones (paper: pieces) and lists of them, by value.
ghost use Rattle.std.specs.Prelude.{◌≡◌};
ghost use Rattle.zones.specs.Settled.{opposite_c};
ghost use Rattle.zones.specs.Zone.{more_c};

use expr::{Bound, Expr};

// A zone: its inequalities, the first `count` of the list, each an expression that is at least 0, zeros past them; and its matrix, five
// rows of five: entry 5i + j bounds clock i - clock j.
#[derive(Clone, Copy)]
pub struct Zone {
    pub count: usize,
    pub ineqs: [Expr; 24],
    pub bounds: [Bound; 25],
}

// Zones in order at a visit (moves made), the first `count` of the list, blank past them; or a refusal, 7 or 8, and no zones.
#[derive(Clone, Copy)]
pub struct Zones {
    pub refusal: usize,
    pub visit: usize,
    pub count: usize,
    pub list: [Zone; 32],
}

impl Zone {
    // No inequalities, all entries zero, not strict.
    pub const BLANK: Zone = Zone {
        count: 0,
        ineqs: [Expr::ZERO; 24],
        bounds: [Bound::ZERO; 25],
    };
}

// The zone with one more inequality; one with 24 stays as it is.
pub fn with_inequality(zone: Zone, e: Expr) -> Zone
    ensures { result ≡ more_c zone e }
{
    let n = zone.count;
    if n < 24 {
        let mut more = zone;
        more.ineqs[n] = e;
        more.count = n + 1;
        return more;
    }
    zone
}

// The zone with the opposite of e ≥ 0 as one more inequality; one with 24 stays as it is.
pub fn with_opposite(zone: Zone, e: Expr) -> Zone
    ensures { result ≡ more_c zone (opposite_c e) }
{
    with_inequality(zone, e.opposite())
}
