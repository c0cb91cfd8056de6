// The last of several inequalities against those before it.
ghost use Rattle.std.specs.Prelude.{◌≡◌, true};
ghost use Rattle.std.proofs.Math.Option.{none};
ghost use Rattle.inequalities.specs.Flat.{exprs_in};
ghost use Rattle.valuations.specs.Valuations.{first};

use crate::pair::clash;
use expr::Ranges;

// Whether the last of n inequalities and an earlier one are seen not to hold together in the box.
pub fn clashes(b: Ranges, flat: &[i32], n: usize) -> bool
    ensures { result ≡ true → first b.list (exprs_in flat.now n) ≡ none }
{
    let earlier = n.saturating_sub(1);
    let last = inequalities::inequality(flat, earlier);
    for k in 0..earlier {
        if clash(b, inequalities::inequality(flat, k), last) {
            return true;
        }
    }
    false
}
