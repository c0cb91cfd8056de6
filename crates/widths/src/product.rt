// The product of a box's widths, which ends at the largest usize: four full ranges of i16 hold one valuation more than a usize counts.
ghost use Rattle.std.specs.Prelude.{◌≡◌, min};
ghost use Rattle.valuations.specs.Valuations.{widths};

use crate::ranges;
use expr::Ranges;

// How many valuations the box has.
pub fn volume(b: Ranges) -> usize
    ensures { result ≡ min (widths b.list) 18446744073709551615 }
{
    let mut total: usize = 1;
    for r in &b.list {
        let width = ranges::width(*r);
        total = total.saturating_mul(width);
    }
    total
}
