// The walk along a sheet's route at one valuation.
ghost use Rattle.std.specs.Prelude.{◌≡◌, min, take};
ghost use Rattle.expr.specs.Records.{point};
ghost use Rattle.index.specs.SheetIn.{sheet_in};
ghost use Rattle.weight_matrix.specs.Tables.{start_table};
ghost use Rattle.walk.specs.Walked.{guards_table, invariants_table, stay_table, move_table, sweep_table};

use automaton::{Location, Transition};
use expr::Valuation;
use guards::Guard;
use index::{Index, location_at, transition_at};
use weight::Weight;

// The matrix after the first count guards (paper: limits) with v put in, in order. Three entries say whether a guard changes it.
fn guards_of(
    m: [[Weight; 5]; 5],
    clocks: usize,
    v: Valuation,
    count: usize,
    guards: [Guard; 6],
) -> [[Weight; 5]; 5]
    ensures { result ≡ guards_table m clocks (point v) (take count guards) }
{
    let n = count.min(6);
    let mut now = m;
    for g in &guards[..n] {
        let e = values::bound_at(g.bound, v);
        let i = (g.left as usize).min(4);
        let j = (g.right as usize).min(4);
        if weight_matrix::changes(now[0][0], now[j][i], now[i][j], e) {
            let next = weight_guard::guarded(now, clocks, g.left as usize, g.right as usize, e);
            now = next;
        }
    }
    now
}

// The matrix after a stay: a wait, then the location's invariants (paper: standing limits).
fn stay(m: [[Weight; 5]; 5], clocks: usize, v: Valuation, here: Location) -> [[Weight; 5]; 5]
    ensures { result ≡ stay_table m clocks (point v) here }
{
    let invariants = here.guards;
    guards_of(
        weight_delay::delayed(m, clocks),
        clocks,
        v,
        here.count,
        invariants,
    )
}

// The matrix after a transition (paper: move): its guards, its resets, and on arrival the invariants of the location that it goes to.
fn moved(
    m: [[Weight; 5]; 5],
    clocks: usize,
    v: Valuation,
    t: Transition,
    there: Location,
) -> [[Weight; 5]; 5]
    ensures { result ≡ move_table m clocks (point v) t there }
{
    let guards = t.guards;
    let limited = guards_of(m, clocks, v, t.count, guards);
    let reset = weight_delay::resets(limited, clocks, t.resets);
    let invariants = there.guards;
    guards_of(reset, clocks, v, there.count, invariants)
}

// The matrix at the start: all entries zero, not strict, after the invariants of the location where the route starts.
fn start(clocks: usize, v: Valuation, here: Location) -> [[Weight; 5]; 5]
    ensures { result ≡ invariants_table start_table clocks (point v) here }
{
    let zeros = [[Weight::ZERO; 5]; 5];
    let invariants = here.guards;
    guards_of(zeros, clocks, v, here.count, invariants)
}

// The matrix after the whole route of a file's index.
pub fn walk(file: &[u8], ix: Index, v: Valuation) -> [[Weight; 5]; 5]
    ensures { result ≡ sweep_table (sheet_in file.now ix) (point v) }
{
    let clocks = ix.clocks as usize;
    let n = (ix.moves as usize).min(32);
    let mut here = location_at(file, ix, 0);
    let mut m = start(clocks, v, here);
    for k in 0..n {
        let t = transition_at(file, ix, usize::from(ix.route[k]));
        let there = location_at(file, ix, t.to);
        let next = moved(stay(m, clocks, v, here), clocks, v, t, there);
        m = next;
        here = there;
    }
    stay(m, clocks, v, here)
}
