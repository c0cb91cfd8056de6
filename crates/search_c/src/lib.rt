// The satisfiability search for programs in other languages: slices of numbers in, one number out.
// The ranges: low and high of each parameter. The inequalities: the constant and a coefficient for each parameter, one after another.
// Past the end of a slice every number is 0; numbers left over do not count.
#![tactic(auto)]

ghost use Rattle.std.specs.Prelude.{◌≡◌, ◌<◌, min};
ghost use Rattle.expr.specs.Records.{range_list, valuation_of};
ghost use Rattle.first_met.specs.Solutions.{solution_of};
ghost use Rattle.search.specs.Answers.{is_some};
ghost use Rattle.valuations.specs.Valuations.{first, count};
ghost use Rattle.search_c.specs.Input.{number_at, range_at, ranges_of, exprs_of};
ghost use Rattle.search_c.specs.Answer.{number_of};

use expr::{PARAMETERS, Range, Ranges, Valuation};

// The number at i, or 0 past the end.
fn number(s: &[i16], i: usize) -> i16
    ensures { result ≡ number_at s.now i }
{
    s.get(i).copied().unwrap_or(0)
}

// The range at i.
fn range(s: &[i16], i: usize) -> Range
    requires { i < 4 }
    ensures { result ≡ range_at s.now i }
{
    Range {
        low: number(s, 2 * i),
        high: number(s, 2 * i + 1),
    }
}

// The ranges of the parameters.
fn ranges_of(s: &[i16]) -> Ranges
    ensures { result ≡ ranges_of s.now }
{
    let mut b = Ranges::ZERO;
    for i in 0..PARAMETERS {
        b.list[i] = range(s, i);
    }
    b
}

// The valuation of a slice.
fn valuation_of(s: &[i16]) -> Valuation
    ensures { result ≡ valuation_of s.now }
{
    let mut v = Valuation::ZERO;
    for i in 0..PARAMETERS {
        v.numbers[i] = number(s, i);
    }
    v
}

// The number of parameter k in a valuation, 0 past the last parameter.
fn number_in(v: Valuation, k: usize) -> i64
    ensures { result ≡ number_at v.numbers k }
{
    i64::from(number(&v.numbers, k))
}

// The number of parameter k in a solution; or 65,536, which is no number of 16 bits, for nothing.
fn number_of(s: Option<Valuation>, k: usize) -> i64
    ensures { result ≡ number_of s k }
{
    match s {
        Some(v) => number_in(v, k),
        None => 65536,
    }
}

// The number of parameter k in the first valuation, in lexicographic order, that meets the inequalities; or 65,536.
#[unsafe(no_mangle)]
pub extern "C" fn search_first(ranges: &[i16], inequalities: &[i32], k: usize) -> i64
    ensures { result
        ≡ number_of
        (solution_of (first (range_list (ranges_of ranges.now)) (exprs_of inequalities.now)))
        k }
{
    number_of(
        search::first(ranges_of(ranges), inequalities, inequalities.len() / 5),
        k,
    )
}

// How many valuations meet the inequalities; the largest number of 64 bits where there are more.
#[unsafe(no_mangle)]
pub extern "C" fn search_count(ranges: &[i16], inequalities: &[i32]) -> usize
    ensures { result
        ≡ min (count (range_list (ranges_of ranges.now)) (exprs_of inequalities.now))
        18446744073709551615 }
{
    counting::count(ranges_of(ranges), inequalities, inequalities.len() / 5)
}

// Whether some valuation meets the inequalities; the guess is tried before a search.
#[unsafe(no_mangle)]
pub extern "C" fn search_some(ranges: &[i16], guess: &[i16], inequalities: &[i32]) -> bool
    ensures { result
        ≡ is_some (first (range_list (ranges_of ranges.now)) (exprs_of inequalities.now)) }
{
    search::some_meets(
        ranges_of(ranges),
        valuation_of(guess),
        inequalities,
        inequalities.len() / 5,
    )
}
