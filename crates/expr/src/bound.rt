// Bounds on a difference of two clocks (paper: watches): their sum, and the test of which is tighter.
ghost use Rattle.std.specs.Prelude.{◌≡◌};
ghost use Rattle.expr.specs.Bounds.{sum_b, tighter_b, saturated_b};
ghost use Rattle.expr.specs.Records.{bound_as, bound_of, test};

use crate::number::Expr;

// A bound: none, or an expression with a strict mark. None has a zero expression and is not strict.
#[derive(Clone, Copy)]
pub struct Bound {
    pub none: bool,
    pub strict: bool,
    pub expr: Expr,
}

// Whether a bound is tighter than another: yes or no without a test; or exactly if the expression is at least 0.
#[derive(Clone, Copy)]
pub enum Test {
    Yes,
    No,
    Ask(Expr),
}

impl Bound {
    // No bound (paper: none).
    pub const NONE: Bound = Bound {
        none: true,
        strict: false,
        expr: Expr::ZERO,
    };

    // Zero, not strict.
    pub const ZERO: Bound = Bound {
        none: false,
        strict: false,
        expr: Expr::ZERO,
    };

    // The sum: expressions added; strict if either is; none if either is. A number past ±(2^30 - 1) counts as that end.
    pub fn sum(self, other: Bound) -> Bound
        ensures { result ≡ bound_of (sum_b (saturated_b (bound_as self)) (saturated_b (bound_as other))) }
    {
        if self.none {
            return Bound::NONE;
        }
        if other.none {
            return Bound::NONE;
        }
        Bound {
            none: false,
            strict: self.strict | other.strict,
            expr: self.expr.plus(other.expr),
        }
    }

    // Whether self is tighter than other: the second less the first, less one, plus one where only the first is strict, is at least 0.
    // A number past ±(2^30 - 1) counts as that end.
    pub fn tighter(self, other: Bound) -> Test
        ensures { result ≡ test (tighter_b (saturated_b (bound_as self)) (saturated_b (bound_as other))) }
    {
        if self.none {
            return Test::No;
        }
        if other.none {
            return Test::Yes;
        }
        let first = self.expr;
        let second = other.expr;
        let only_first = self.strict & !other.strict;
        Test::Ask(second.less(first).less_one().plus_one_where(only_first))
    }
}
