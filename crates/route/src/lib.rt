// The route of a sheet file (paper 01, "The sheet file", Body 4), and whether it links: its first move starts in location 0, each other
// where the last arrived.
//
// Every public function is total, and its contract is an equation with a definition of specs/Route.
#![tactic(auto)]

ghost use Rattle.std.specs.Prelude.{◌≡◌, ◌<◌};
ghost use Rattle.std.specs.declared.result.Result.TheVariants.{Ok};
ghost use Rattle.route.specs.Route.{route_read, route_at, ends_at, link_step, links_of};

use automaton::Transition;
use cursor::{Cursor, below_field, byte_field, finished};

// Body 4: where reading stands after it, how many moves, and their transitions' numbers.
#[derive(Clone, Copy)]
pub struct RouteAt {
    pub cursor: Cursor,
    pub count: u8,
    pub list: [u8; 32],
}

// Where a transition starts and where it arrives.
#[derive(Clone, Copy)]
pub struct Ends {
    pub from: usize,
    pub to: usize,
}

// The fields of body 4.
fn route_read(file: &[u8], end: usize, transitions: u8, cursor: Cursor) -> RouteAt
    ensures { result ≡ route_read file.now end transitions cursor }
{
    let count = byte_field(file, end, 0, 32, cursor);
    let n = usize::from(count.byte).min(32);
    let mut list = [0u8; 32];
    let mut here = count;
    for i in 0..n {
        let number = below_field(file, end, transitions, here);
        list[i] = number.byte;
        here = number;
    }
    RouteAt {
        cursor: here,
        count: count.byte,
        list,
    }
}

// Body 4: the route.
pub fn route_at(file: &[u8], end: usize, transitions: u8, cursor: Cursor) -> RouteAt
    ensures { result ≡ route_at file.now end transitions cursor }
{
    let mut all = route_read(file, end, transitions, cursor);
    all.cursor = finished(end, all.cursor);
    all
}

// The ends of the transition with this number, 0 and 0 where there is none.
fn ends_at(transition: [Transition; 32], number: u8) -> Ends
    ensures { result ≡ ends_at transition number }
{
    let i = number as usize;
    if i < 32 {
        let found = transition[i];
        Ends {
            from: found.from,
            to: found.to,
        }
    } else {
        Ends { from: 0, to: 0 }
    }
}

// One more move, if the count says so: where the route has arrived then, or the move's index where it does not start where the last
// arrived.
fn link_step(
    transition: [Transition; 32],
    route: [u8; 32],
    moves: usize,
    i: u8,
    location: usize,
) -> Result<usize, u8>
    requires { i < 32 }
    ensures { result ≡ link_step transition route moves i (Ok location) }
{
    let k = i as usize;
    let ends = ends_at(transition, route[k]);
    if k < moves {
        if ends.from == location {
            Ok(ends.to)
        } else {
            Err(i)
        }
    } else {
        Ok(location)
    }
}

// The whole route followed from location 0: where it has arrived, or the index of the first move that does not start where the last
// arrived.
pub fn links_of(transition: [Transition; 32], route: [u8; 32], moves: usize) -> Result<usize, u8>
    ensures { result ≡ links_of transition route moves }
{
    let mut location = 0;
    for i in 0..32 {
        location = link_step(transition, route, moves, i, location)?;
    }
    Ok(location)
}
