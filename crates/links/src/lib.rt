// Whether the route of an index links: only where each transition starts and arrives is read.
#![tactic(auto)]

ghost use Rattle.std.specs.Prelude.{◌≡◌, ◌<◌};
ghost use Rattle.std.specs.declared.result.Result.TheVariants.{Ok};
ghost use Rattle.route.specs.Route.{ends_at, link_step, links_of};
ghost use Rattle.index.specs.SheetIn.{sheet_in};

use cursor::below_field;
use index::{Index, standing};
use route::Ends;

// The ends of the transition with this number, 0 and 0 where there is none.
fn ends_at(file: &[u8], ix: Index, number: u8) -> Ends
    ensures { result ≡ ends_at (sheet_in file.now ix).transition number }
{
    let i = number as usize;
    if i < 32 {
        if i < (ix.transitions as usize) {
            let start = standing(ix.transition[i]);
            let from = below_field(file, ix.third as usize, ix.locations, start);
            let to = below_field(file, ix.third as usize, ix.locations, from);
            return Ends {
                from: from.byte as usize,
                to: to.byte as usize,
            };
        }
    }
    Ends { from: 0, to: 0 }
}

// One more move, which the route has: where the route has arrived then, or the move's index where it does not start where the last
// arrived.
fn link_step(file: &[u8], ix: Index, i: usize, location: usize) -> Result<usize, u8>
    requires { (i < 32) × (i < ix.moves) }
    ensures { result ≡ link_step (sheet_in file.now ix).transition ix.route ix.moves i (Ok location) }
{
    let ends = ends_at(file, ix, ix.route[i]);
    if ends.from == location {
        Ok(ends.to)
    } else {
        Err(i as u8)
    }
}

// The whole route followed from location 0: where it has arrived, or the index of the first move that does not start where the last
// arrived.
pub fn links_of(file: &[u8], ix: Index) -> Result<usize, u8>
    ensures { result ≡ links_of (sheet_in file.now ix).transition ix.route ix.moves }
{
    let n = usize::from(ix.moves).min(32);
    let mut location = 0;
    for i in 0..n {
        location = link_step(file, ix, i, location)?;
    }
    Ok(location)
}
