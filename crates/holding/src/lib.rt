// What a zone (paper: piece) holds of the valuations (paper: settings) of ranges: the first.
#![tactic(auto)]

ghost use Rattle.std.specs.Prelude.{◌≡◌, map, take};
ghost use Rattle.expr.specs.Records.{affine, range_list, valuation_of};
ghost use Rattle.valuations.specs.Valuations.{first, numbers_in};

use expr::{Ranges, Valuation};
use zones::Zone;

// The first valuation of the ranges that a zone holds, comparing parameter 1, then 2 and so on, smaller first; zeros if it holds none.
pub fn first_held(b: Ranges, zone: Zone) -> Valuation
    ensures { result ≡ valuation_of (numbers_in (first (range_list b) (map affine (take zone.count zone.ineqs)))) }
{
    let list = zones::flat_of(zone);
    search::first(b, &list.numbers, list.count).unwrap_or(Valuation::ZERO)
}
