// A test on a zone (paper: piece): settled if all or none of its valuations (paper: settings) satisfy it; otherwise it splits the zone.
#![tactic(auto)]

ghost use Rattle.std.specs.Prelude.{◌≡◌, true, pos, ◌<ℤ◌};
ghost use Rattle.std.specs.Int.Signed.{le_z};
ghost use Rattle.expr.specs.Affine.{value};
ghost use Rattle.expr.specs.Records.{affine, range_list};
ghost use Rattle.narrowing.specs.Best.{best_of};
ghost use Rattle.zones.specs.Fits.{Fit};
ghost use Rattle.zones.specs.System.{SameRows};
ghost use Rattle.zones.specs.Settled.{never_f, not_no_f, on_f, settled_f, split_c};

use expr::{Expr, Test, Valuation};
use zones::{Hint, Told};

// Whether a search found nothing, or it was known before; whether there was a search; and the valuation that was found, else the guess.
#[derive(Clone, Copy)]
struct Seen {
    never: bool,
    searched: bool,
    witness: Valuation,
}

// A verdict; whether a search told so of no or yes; and a valuation: where the test splits, the guess is on one side of it and this one
// may be on the other.
#[derive(Clone, Copy)]
pub struct Verdict {
    pub kind: Told,
    pub searched: bool,
    pub witness: Valuation,
}

// Whether e is below 0 throughout the hint's ranges.
fn fails(h: Hint, e: Expr) -> bool
    ensures { result ≡ true → best_of (affine e) (range_list h.ranges) <ℤ pos 0 }
{
    narrowing::best(h.ranges, e) < 0
}

// Whether the guess is sure, and e at least 0 there.
fn held(h: Hint, e: Expr) -> bool
    ensures { result ≡ true → (h.sure ≡ true) × (le_z (pos 0) (value (affine e) h.guess.numbers) ≡ true) }
{
    if h.sure {
        return 0 <= inequalities::value_at(h.guess, e);
    }
    false
}

// Whether no valuation of the hint's ranges meets the first n inequalities of the list and e: at a glance; by a nogood; or, e being
// written behind them, by the other valuation or a search.
fn never(h: Hint, flat: &mut [i32], n: usize, e: Expr) -> Seen
    requires { Fit h n flat.old }
    ensures never_value { result.never ≡ never_f h.ranges flat.old n e }
    ensures leaves { SameRows n flat.old flat.new }
{
    let other = h.other;
    if fails(h, e) {
        return Seen {
            never: true,
            searched: false,
            witness: other,
        };
    }
    if nogoods::refute(h.nogoods, e) {
        return Seen {
            never: true,
            searched: false,
            witness: other,
        };
    }
    zones::put(flat, n, e);
    let m = n.min(24) + 1;
    if let Some(seen) = search::glance(h.ranges, other, flat, m) {
        return Seen {
            never: !seen,
            searched: false,
            witness: other,
        };
    }
    let s = search::hunt(h.ranges, flat, m);
    Seen {
        never: s.is_none(),
        searched: true,
        witness: s.unwrap_or(Valuation::ZERO),
    }
}

// What becomes of n inequalities that a test splits: one more, or a 25th.
fn split_at(n: usize) -> Told
    ensures { result ≡ split_c n }
{
    if n < 24 {
        return Told::Split;
    }
    Told::Full
}

// The verdict on a test that is not no, x being its opposite: yes, or a split.
fn not_no(h: Hint, flat: &mut [i32], n: usize, x: Expr) -> Verdict
    requires { Fit h n flat.old }
    ensures kind_value { result.kind ≡ not_no_f h.ranges flat.old n x }
    ensures leaves { SameRows n flat.old flat.new }
{
    let asked = never(h, flat, n, x);
    let witness = asked.witness;
    if asked.never {
        return Verdict {
            kind: Told::Yes,
            searched: asked.searched,
            witness,
        };
    }
    Verdict {
        kind: split_at(n),
        searched: false,
        witness,
    }
}

// The verdict on e ≥ 0. The guess, where it is sure, tells one of the two sides.
fn on(h: Hint, flat: &mut [i32], n: usize, e: Expr) -> Verdict
    requires { Fit h n flat.old }
    ensures kind_value { result.kind ≡ on_f h.ranges flat.old n e }
    ensures leaves { SameRows n flat.old flat.new }
{
    if held(h, e) {
        return not_no(h, flat, n, e.opposite());
    }
    let first = never(h, flat, n, e);
    let witness = first.witness;
    if first.never {
        return Verdict {
            kind: Told::No,
            searched: first.searched,
            witness,
        };
    }
    let x = e.opposite();
    if held(h, x) {
        return Verdict {
            kind: split_at(n),
            searched: false,
            witness,
        };
    }
    not_no(h, flat, n, x)
}

// The verdict on a test of the valuations of the hint's ranges that meet the first n inequalities of the list. The list has a place behind
// them, where the test is written. Whatever the valuations of the hint are, the verdict is the same; one that meets the inequalities saves
// a search, and so do nogoods.
pub fn settled(h: Hint, flat: &mut [i32], n: usize, test: Test) -> Verdict
    requires { Fit h n flat.old }
    ensures kind_value { result.kind ≡ settled_f h.ranges flat.old n test }
    ensures leaves { SameRows n flat.old flat.new }
{
    let witness = h.other;
    match test {
        Test::Yes => Verdict {
            kind: Told::Yes,
            searched: false,
            witness,
        },
        Test::No => Verdict {
            kind: Told::No,
            searched: false,
            witness,
        },
        Test::Ask(e) => on(h, flat, n, e),
    }
}
