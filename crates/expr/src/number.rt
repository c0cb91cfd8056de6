// Expressions: their numbers never wrap (crate saturating).
ghost use Rattle.std.specs.Prelude.{◌≡◌, cond, pos, ◌+ℤ◌, ◌-ℤ◌};
ghost use Rattle.std.specs.Int.{w32};
ghost use Rattle.std.proofs.Common.{SFits};
ghost use Rattle.expr.specs.Affine.{plus, minus, opposite, saturated_e};
ghost use Rattle.expr.specs.Records.{affine, expr_of};

use saturating::{difference, sum};

// How many parameters (paper: allowances) expressions, valuations and ranges have; those that a sheet lacks are 0.
pub const PARAMETERS: usize = 4;

// An expression: a constant, and a coefficient for each parameter.
#[derive(Clone, Copy)]
pub struct Expr {
    pub constant: i32,
    pub coefs: [i32; PARAMETERS],
}

// A valuation of the parameters (paper: setting).
#[derive(Clone, Copy)]
pub struct Valuation {
    pub numbers: [i16; PARAMETERS],
}

impl Valuation {
    pub const ZERO: Valuation = Valuation {
        numbers: [0; PARAMETERS],
    };
}

impl Expr {
    pub const ZERO: Expr = Expr {
        constant: 0,
        coefs: [0; PARAMETERS],
    };

    // self + other; a number past ±(2^30 - 1) counts as that end.
    pub(crate) fn plus(self, other: Expr) -> Expr
        ensures { result ≡ expr_of (plus (saturated_e (affine self)) (saturated_e (affine other))) }
    {
        let mut r = Expr::ZERO;
        r.constant = sum(self.constant, other.constant);
        for i in 0..PARAMETERS {
            r.coefs[i] = sum(self.coefs[i], other.coefs[i]);
        }
        r
    }

    // self - other; a number past ±(2^30 - 1) counts as that end.
    pub(crate) fn less(self, other: Expr) -> Expr
        ensures { result ≡ expr_of (minus (saturated_e (affine self)) (saturated_e (affine other))) }
    {
        let mut r = Expr::ZERO;
        r.constant = difference(self.constant, other.constant);
        for i in 0..PARAMETERS {
            r.coefs[i] = difference(self.coefs[i], other.coefs[i]);
        }
        r
    }

    // self - 1.
    pub(crate) fn less_one(self) -> Expr
        requires { SFits w32 (self.constant -ℤ pos 1) }
        ensures { result ≡ record { constant = self.constant -ℤ pos 1; coefs = self.coefs } }
    {
        let mut r = self;
        r.constant = self.constant - 1;
        r
    }

    // self + 1 where b, else self.
    pub(crate) fn plus_one_where(self, b: bool) -> Expr
        requires { SFits w32 (self.constant +ℤ pos 1) }
        ensures { result ≡ record { constant = self.constant +ℤ cond b (pos 1) (pos 0); coefs = self.coefs } }
    {
        let mut r = self;
        r.constant = self.constant + b as i32;
        r
    }

    // The opposite of self ≥ 0, parameters being whole: -self - 1 ≥ 0. A number past ±(2^30 - 1) counts as that end.
    pub fn opposite(self) -> Expr
        ensures { result ≡ expr_of (opposite (saturated_e (affine self))) }
    {
        let mut r = Expr::ZERO;
        r.constant = difference(-1, self.constant);
        for i in 0..PARAMETERS {
            r.coefs[i] = difference(0, self.coefs[i]);
        }
        r
    }
}
