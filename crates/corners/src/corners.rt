// Boxes of ranges: their corners, whether a valuation lies inside, and the first range that has several numbers.
ghost use Rattle.std.specs.Prelude.{◌≡◌, true, false, map, ◌-◌};
ghost use Rattle.expr.specs.Ranges.{Inside};
ghost use Rattle.corners.specs.Boxes.{low_of, turn, wide_from};

use expr::{PARAMETERS, Range, Ranges, Valuation};

// The lowest corner.
pub fn corner(b: Ranges) -> Valuation
    ensures { result.numbers ≡ map low_of b.list }
{
    Valuation {
        numbers: b.list.map(|r| r.low),
    }
}

// The box with the ends of each range exchanged: the best of an inequality there is its worst in the box.
pub fn turned(b: Ranges) -> Ranges
    ensures { result.list ≡ map turn b.list }
{
    Ranges {
        list: b.list.map(|r| Range {
            low: r.high,
            high: r.low,
        }),
    }
}

// Whether a valuation lies inside the box.
pub fn inside(b: Ranges, v: Valuation) -> bool
    ensures yes { result ≡ true → Inside v.numbers b.list }
    ensures no { result ≡ false → Inside v.numbers b.list → ⊥ }
{
    for i in 0..PARAMETERS {
        let r = b.list[i];
        let x = v.numbers[i];
        if x < r.low {
            return false;
        }
        if r.high < x {
            return false;
        }
    }
    true
}

// The first place from `start` on whose range has several numbers.
pub fn wide(b: Ranges, start: usize) -> Option<usize>
    ensures { result ≡ wide_from b.list start (4 - start) }
{
    for i in start..PARAMETERS {
        let r = b.list[i];
        if r.low < r.high {
            return Some(i);
        }
    }
    None
}
