// Numbers without a wrap: a number past ±(2^30 - 1) counts as that end in a sum, and a product is taken at a width that holds it.
#![tactic(auto)]

ghost use Rattle.std.specs.Prelude.{◌≡◌, ◌+ℤ◌, ◌-ℤ◌, ◌*ℤ◌};
ghost use Rattle.weight.specs.Upper.{saturate};
ghost use Rattle.saturating.specs.Largest.{LARGEST};

// Numbers count up to ±(2^30 - 1).
const HIGHEST: i32 = 1073741823;

// x, or the nearer end of -HIGHEST to HIGHEST.
fn clamped(x: i32) -> i32
    ensures { result ≡ saturate LARGEST x }
{
    x.clamp(-HIGHEST, HIGHEST)
}

// x + y, each clamped.
pub fn sum(x: i32, y: i32) -> i32
    ensures { result ≡ saturate LARGEST x +ℤ saturate LARGEST y }
{
    clamped(x) + clamped(y)
}

// x - y, each clamped.
pub fn difference(x: i32, y: i32) -> i32
    ensures { result ≡ saturate LARGEST x -ℤ saturate LARGEST y }
{
    clamped(x) - clamped(y)
}

// x · y.
pub fn product(x: i32, y: i16) -> i64
    ensures { result ≡ x *ℤ y }
{
    i64::from(x) * i64::from(y)
}
