// A range in two: the numbers before a place, and those from it on.
ghost use Rattle.std.specs.Prelude.{◌≡◌, ◌<◌};
ghost use Rattle.valuations.specs.Valuations.{width};
ghost use Rattle.widths.specs.Halves.{lower_of, upper_of};

use crate::ranges;
use expr::Range;

// The first n numbers of the range.
pub fn lower(range: Range, n: usize) -> Range
    requires { (0 < n) × (n < width range) }
    ensures { result ≡ lower_of range n }
{
    let last = ranges::point(range, n - 1);
    Range {
        low: range.low,
        high: last.high,
    }
}

// The numbers of the range but for the first n.
pub fn upper(range: Range, n: usize) -> Range
    requires { n < width range }
    ensures { result ≡ upper_of range n }
{
    let next = ranges::point(range, n);
    Range {
        low: next.low,
        high: range.high,
    }
}
