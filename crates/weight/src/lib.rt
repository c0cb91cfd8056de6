// Weights: bounds at one valuation, in plain numbers.
#![tactic(auto)]

ghost use Rattle.std.specs.Prelude.{◌≡◌};
ghost use Rattle.weight.specs.Upper.{MOST, sum_w, tighter_w, saturate, saturated};
ghost use Rattle.weight.specs.Records.{weight_as, weight_of};

// A weight: none, or a number with a strict mark. None has the number 0 and is not strict.
#[derive(Clone, Copy)]
pub struct Weight {
    pub none: bool,
    pub strict: bool,
    pub value: i64,
}

// Numbers count up to ±(2^62 - 1).
const HIGHEST: i64 = 4611686018427387903;

// x, or the nearer end of -HIGHEST to HIGHEST.
fn clamped(x: i64) -> i64
    ensures { result ≡ saturate MOST x }
{
    x.clamp(-HIGHEST, HIGHEST)
}

impl Weight {
    // No bound (paper: none).
    pub const NONE: Weight = Weight {
        none: true,
        strict: false,
        value: 0,
    };

    // Zero, not strict.
    pub const ZERO: Weight = Weight {
        none: false,
        strict: false,
        value: 0,
    };

    // The sum: numbers added; strict if either is; none if either is. A number past ±(2^62 - 1) counts as that end.
    pub fn sum(self, other: Weight) -> Weight
        ensures { result ≡ weight_of (sum_w (saturated (weight_as self)) (saturated (weight_as other))) }
    {
        if self.none {
            return Weight::NONE;
        }
        if other.none {
            return Weight::NONE;
        }
        Weight {
            none: false,
            strict: self.strict | other.strict,
            value: clamped(self.value) + clamped(other.value),
        }
    }

    // Whether self is tighter than other: the second less the first, less one, plus one where only the first is strict, is at least 0.
    // A number past ±(2^62 - 1) counts as that end.
    pub fn tighter(self, other: Weight) -> bool
        ensures { result ≡ tighter_w (saturated (weight_as self)) (saturated (weight_as other)) }
    {
        if self.none {
            return false;
        }
        if other.none {
            return true;
        }
        clamped(other.value) - clamped(self.value) - 1 + (self.strict & !other.strict) as i64 >= 0
    }
}
