// Satisfiability of inequalities over the ranges of parameters: whether a valuation meets them, at a glance or by a search; and, from the
// crates below, the first that does, whether a given one does, and what they leave of the ranges.
// Inequalities stand in a flat list, 1 + PARAMETERS numbers each: the constant, then the coefficients; past the end every number is 0.
#![tactic(auto)]

ghost use Rattle.std.specs.Prelude.{◌≡◌, true, IfSome};
ghost use Rattle.std.specs.Prelude as code;
ghost use Rattle.std.proofs.Math.Option.{none};
ghost use Rattle.expr.specs.Ranges.{Inside};
ghost use Rattle.expr.specs.Records.{range_list};
ghost use Rattle.inequalities.specs.Flat.{exprs_in};
ghost use Rattle.search.specs.Answers.{is_some, Glanced};
ghost use Rattle.valuations.specs.Valuations.{satisfies, first};

use expr::{Ranges, Valuation};
pub use first_met::first;
pub use systems::{meets, narrowed};

// Whether the last of n inequalities is below 0 throughout b.
fn fails(b: Ranges, flat: &[i32], n: usize) -> bool
    ensures { result ≡ true → first b.list (exprs_in flat.now n) ≡ none }
{
    if n == 0 {
        return false;
    }
    narrowing::best(b, inequalities::inequality(flat, n - 1)) < 0
}

// Whether the guess is seen to be a valuation of b that meets the first n inequalities: the last is tried first.
fn guessed(b: Ranges, guess: Valuation, flat: &[i32], n: usize) -> bool
    ensures { result ≡ true → Inside guess.numbers b.list
        × (satisfies (exprs_in flat.now n) guess.numbers ≡ true) }
{
    let last = inequalities::inequality(flat, n.saturating_sub(1));
    if inequalities::value_at(guess, last) < 0 {
        return false;
    }
    if corners::inside(b, guess) {
        return systems::meets(guess, flat, n);
    }
    false
}

// Whether some valuation of b meets them, where it is seen without a search: the guess is tried, and the last inequality by itself.
pub fn glance(b: Ranges, guess: Valuation, flat: &[i32], n: usize) -> Option<bool>
    ensures { Glanced (is_some (first (range_list b) (exprs_in flat.now n))) result }
{
    let m = n.min(flat.len());
    if guessed(b, guess, flat, m) {
        return Some(true);
    }
    if fails(b, flat, m) {
        return Some(false);
    }
    None
}

// A valuation of b that meets them, if there is one, where it is not likely that there is: the last inequality is held against the others
// before a search by halves.
pub fn hunt(b: Ranges, flat: &[i32], n: usize) -> Option<Valuation>
    ensures found_value { code.is_some result ≡ is_some (first (range_list b) (exprs_in flat.now n)) }
    ensures one { IfSome result (λ v. Inside v.numbers (range_list b)
        × (satisfies (exprs_in flat.now n) v.numbers ≡ true)) }
{
    if clashes::clashes(b, flat, n.min(flat.len())) {
        return None;
    }
    halving::some(b, flat, n)
}

// Whether some valuation of b meets them; the guess is tried before a search.
pub fn some_meets(b: Ranges, guess: Valuation, flat: &[i32], n: usize) -> bool
    ensures { result ≡ is_some (first (range_list b) (exprs_in flat.now n)) }
{
    if let Some(seen) = glance(b, guess, flat, n) {
        return seen;
    }
    hunt(b, flat, n).is_some()
}
