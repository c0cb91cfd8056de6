// The inequalities that do not hold throughout a box, copied into a list of their own.
ghost use Rattle.std.specs.Prelude.{◌≡◌, ◌≤◌, length};
ghost use Rattle.inequalities.specs.Flat.{exprs_in, put_in};
ghost use Rattle.sifting.specs.Sifting.{Sifted};

use expr::{Expr, Ranges};

// Writes e into the list as inequality k, where it has room for 25 and k is one of them.
fn store(list: &mut [i32], k: usize, e: Expr)
    ensures { list.new ≡ put_in list.old k e }
{
    if k < 25 {
        if 125 <= list.len() {
            let at = 5 * k;
            inequalities::put(list, at, e);
        }
    }
}

// How many of the first n inequalities do not hold throughout the box; where they are 25 at most, `kept` has them from its start on.
pub fn sifted(kept: &mut [i32], b: Ranges, flat: &[i32], n: usize) -> usize
    requires { length kept.old ≡ 125 }
    ensures { result ≤ 25 → Sifted (exprs_in flat.now n) (exprs_in kept.new result) b.list }
{
    let worst = corners::turned(b);
    let mut m = 0;
    for k in 0..n {
        let e = inequalities::inequality(flat, k);
        if narrowing::best(worst, e) < 0 {
            store(kept, m, e);
            m += 1;
        }
    }
    m
}
