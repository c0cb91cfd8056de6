// The numbers of a range.
ghost use Rattle.std.specs.Prelude.{◌≡◌, ◌<◌, ◌≤◌};
ghost use Rattle.corners.specs.Boxes.{point_at};
ghost use Rattle.valuations.specs.Valuations.{width};

use expr::Range;

// How many numbers the range has.
pub fn width(range: Range) -> usize
    ensures value { result ≡ width range }
    ensures small { result ≤ 65536 }
{
    let low = i64::from(range.low);
    let high = i64::from(range.high);
    if low <= high {
        return (high + 1 - low) as usize;
    }
    0
}

// The range of the one number at n, counted from 0.
pub fn point(range: Range, n: usize) -> Range
    requires { n < width range }
    ensures { result ≡ point_at range n }
{
    let x = (i64::from(range.low) + n as i64) as i16;
    Range { low: x, high: x }
}
