// Sweep: one valuation of a sheet's parameters worked out in plain numbers.
//
// The contract of `sweep` is an equation with `reply_of` of specs/Reply, for every file and all numbers; specs/Theorems says what
// that reply is worth: void exactly if no run exists, and else the matrix of tightest bounds over the end states of all runs.
#![tactic(auto)]

mod reply;

ghost use Rattle.std.specs.Prelude.{◌≡◌};
ghost use Rattle.expr.specs.Records.{four};
ghost use Rattle.sweep.specs.Reply.{reply_as, reply_of};

use answers::sweep::Refused;
pub use reply::{Numbers, Reply, Row};

// What Sweep replies to a sheet file and a number for each parameter.
pub fn sweep(file: &[u8], numbers: Numbers) -> Reply
    ensures { reply_as result ≡ reply_of file.now (four numbers.list) }
{
    match indexing::indexed(file) {
        Ok(ix) => reply::reply_for(file, ix, numbers),
        Err(refusal) => reply::blank(Err(Refused::File(refusal))),
    }
}
