// Inequalities as a flat list of numbers, as the search takes them: 1 + PARAMETERS each, the constant, then the coefficients.
ghost use Rattle.std.specs.Prelude.{◌≡◌, map, min, length, take};
ghost use Rattle.expr.specs.Records.{affine};
ghost use Rattle.inequalities.specs.Flat.{exprs_in, put_in};

use crate::zone::Zone;
use expr::Expr;

// The first `count` inequalities of the list, 24 at most; there is room for one more, a test.
#[derive(Clone, Copy)]
pub struct Flat {
    pub count: usize,
    pub numbers: [i32; 125],
}

// Writes e into the list as inequality k, where it has room for 25 and k is one of them.
pub fn put(flat: &mut [i32], k: usize, e: Expr)
    ensures { flat.new ≡ put_in flat.old k e }
{
    if k < 25 {
        if 125 <= flat.len() {
            let at = 5 * k;
            inequalities::put(flat, at, e);
        }
    }
}

// The zone's inequalities, for the search.
pub fn flat_of(zone: Zone) -> Flat
    ensures count_value { exprs_in result.numbers result.count ≡ map affine (take zone.count zone.ineqs) }
    ensures counted { result.count ≡ min zone.count 24 }
{
    let n = zone.count.min(24);
    let mut flat = [0i32; 125];
    for i in 0..n {
        let x = zone.ineqs[i];
        put(&mut flat, i, x);
    }
    Flat {
        count: n,
        numbers: flat,
    }
}
