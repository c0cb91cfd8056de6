// The part of a parameter's range where an inequality can hold.
ghost use Rattle.std.specs.Prelude.{◌≡◌, pos};
ghost use Rattle.integer.specs.Floor.{floor_z};
ghost use Rattle.intervals.specs.Interval.{Tame, from, up_to, interval};

use expr::Range;

// No number.
const EMPTY: Range = Range { low: 1, high: 0 };

// z / d rounded down, for a divisor of either sign.
fn floor(z: i64, d: i64) -> i64
    requires { Tame z × (Tame d × (d ≡ pos 0 → ⊥)) }
    ensures { result ≡ floor_z z d }
{
    if 0 < d {
        return z.div_euclid(d);
    }
    (-z).div_euclid(-d)
}

// The part of r from l on.
fn from(r: Range, l: i64) -> Range
    ensures { result ≡ from r l }
{
    if l <= i64::from(r.low) {
        return r;
    }
    if l <= i64::from(r.high) {
        return Range {
            low: l as i16,
            high: r.high,
        };
    }
    EMPTY
}

// The part of r up to h.
fn up_to(r: Range, h: i64) -> Range
    ensures { result ≡ up_to r h }
{
    if i64::from(r.high) <= h {
        return r;
    }
    if i64::from(r.low) <= h {
        return Range {
            low: r.low,
            high: h as i16,
        };
    }
    EMPTY
}

// The part of r where constant + slope · x ≥ 0.
pub fn interval(r: Range, constant: i64, slope: i64) -> Range
    requires { Tame constant × Tame slope }
    ensures { result ≡ interval r constant slope }
{
    if 0 < slope {
        return from(r, -floor(constant, slope));
    }
    if slope < 0 {
        return up_to(r, floor(-constant, slope));
    }
    if 0 <= constant {
        return r;
    }
    EMPTY
}
