// What is known of a zone before its tests, and what is learned by them.
ghost use Rattle.std.specs.Prelude.{◌≡◌, cond, true, map, take};
ghost use Rattle.expr.specs.Records.{affine, range_list};
ghost use Rattle.systems.specs.Boxes.{Narrows};
ghost use Rattle.expr.specs.Ranges.{Inside};
ghost use Rattle.inequalities.specs.Flat.{exprs_in};
ghost use Rattle.nogoods.specs.Nogoods.{none_n};
ghost use Rattle.valuations.specs.Valuations.{satisfies};
ghost use Rattle.zones.specs.Hinted.{Guessed, found_c, learned_c, noted_by, noted_c};

use crate::system;
use crate::told::Told;
use crate::zone::Zone;
use expr::{Expr, Ranges, Test, Valuation};
use nogoods::Nogoods;

// What is known of a zone: the ranges that its inequalities leave; a valuation that it holds, where that is sure, else one that it may
// hold; another one, that it may hold too; and expressions that no valuation of the zone makes 0 or more. The guess is no Option: it is
// handed on to the parts where it is not sure, too.
#[derive(Clone, Copy)]
pub struct Hint {
    pub ranges: Ranges,
    pub guess: Valuation,
    pub sure: bool,
    pub other: Valuation,
    pub nogoods: Nogoods,
}

impl Hint {
    // Nothing.
    pub const NONE: Hint = Hint {
        ranges: Ranges::ZERO,
        guess: Valuation::ZERO,
        sure: false,
        other: Valuation::ZERO,
        nogoods: Nogoods::NONE,
    };
}

// Of two valuations the second where that is so, else the first.
pub fn better(so: bool, first: Valuation, second: Valuation) -> Valuation
    ensures { result ≡ cond so second first }
{
    if so {
        return second;
    }
    first
}

// Whether a valuation is seen to lie in the ranges and to meet the first n inequalities of the list.
pub fn holds(b: Ranges, v: Valuation, flat: &[i32], n: usize) -> bool
    ensures { result ≡ true → Inside v.numbers b.list
        × (satisfies (exprs_in flat.now n) v.numbers ≡ true) }
{
    if corners::inside(b, v) {
        return search::meets(v, flat, n);
    }
    false
}

// What is known of a zone of these ranges, before any test: the guess is sure where the zone holds it.
pub fn hint_of(b: Ranges, zone: Zone, guess: Valuation) -> Hint
    ensures narrows { Narrows (map affine (take zone.count zone.ineqs)) (range_list b) (range_list result.ranges) }
    ensures held { Guessed zone result }
    ensures new { result.nogoods ≡ none_n }
{
    let list = system::flat_of(zone);
    let ranges = search::narrowed(b, &list.numbers, list.count);
    let sure = holds(ranges, guess, &list.numbers, list.count);
    Hint {
        ranges,
        guess,
        sure,
        other: guess,
        nogoods: Nogoods::NONE,
    }
}

// With another valuation that the zone may hold.
pub fn found(h: Hint, v: Valuation) -> Hint
    ensures { result ≡ found_c h v }
{
    let ranges = h.ranges;
    let guess = h.guess;
    let nogoods = h.nogoods;
    Hint {
        ranges,
        guess,
        sure: h.sure,
        other: v,
        nogoods,
    }
}

// With one more nogood.
fn learned(h: Hint, e: Expr) -> Hint
    ensures { result ≡ learned_c h e }
{
    let ranges = h.ranges;
    let guess = h.guess;
    let other = h.other;
    Hint {
        ranges,
        guess,
        sure: h.sure,
        other,
        nogoods: nogoods::with(h.nogoods, e),
    }
}

// With what the verdict `kind` on e ≥ 0 says: e is a nogood where it is no, its opposite where it is yes.
fn answered(h: Hint, e: Expr, kind: Told) -> Hint
    ensures { result ≡ noted_by h e kind }
{
    match kind {
        Told::No => learned(h, e),
        Told::Yes => learned(h, e.opposite()),
        Told::Split => h,
        Told::Full => h,
        Told::Other(_) => h,
    }
}

// With what the verdict `kind` on a test says, if it asked something.
pub fn noted(h: Hint, test: Test, kind: Told) -> Hint
    ensures { result ≡ noted_c h test kind }
{
    match test {
        Test::Yes => h,
        Test::No => h,
        Test::Ask(e) => answered(h, e, kind),
    }
}
