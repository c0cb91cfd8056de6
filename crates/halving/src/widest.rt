// The widest range of a box.
ghost use Rattle.halving.specs.Halved.{Widest};

use expr::{PARAMETERS, Ranges};

// The place of the widest range, the first of those that have as many numbers.
pub(crate) fn widest(b: Ranges) -> usize
    ensures { Widest result b.list }
{
    let mut w = 0;
    let mut most = 0;
    for i in 0..PARAMETERS {
        let r = b.list[i];
        let n = widths::width(r);
        if most < n {
            most = n;
            w = i;
        }
    }
    w
}
