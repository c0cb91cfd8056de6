// What a guard asks of a matrix (paper: limit, the three rules), test by test: rule (1) is phase 0, rule (2) phase 1, and from 2 on come
// the entries in row order. A phase compares a sum of the guard's bound and of entries with an entry; where these stand is told apart
// from what becomes of them, so that nobody hands a matrix on.
ghost use Rattle.std.specs.Prelude.{◌≡◌, ◌+◌, ◌*◌, min};
ghost use Rattle.constrain.specs.Rules.{places_at, framed_c, inside_c, via_at, outside_c};

use expr::Bound;

// A guard left - right with a bound, for a sheet's clocks, and the matrix that it finds.
#[derive(Clone, Copy)]
pub struct Rule {
    pub clocks: usize,
    pub left: usize,
    pub right: usize,
    pub bound: Bound,
    pub old: [Bound; 25],
}

// Where the entries of a phase stand in the matrix, 25 for none: the first and the last of its sum, and the one that is compared with it;
// and where the sum goes if it is tighter, 0 where the phase is no entry's.
#[derive(Clone, Copy)]
pub struct Reads {
    pub first: usize,
    pub last: usize,
    pub was: usize,
    pub into: usize,
}

// The place of entry (k, l), or 25 outside the matrix.
fn place(k: usize, l: usize) -> usize
    ensures { result ≡ min (5 * k + l) 25 }
{
    (5 * k.min(5) + l.min(25)).min(25)
}

// The places of a phase for a guard left - right.
pub fn places(left: usize, right: usize, phase: usize) -> Reads
    ensures { result ≡ places_at left right phase }
{
    if phase < 1 {
        return Reads {
            first: place(right, left),
            last: 25,
            was: 25,
            into: 0,
        };
    }
    if phase < 2 {
        return Reads {
            first: 25,
            last: 25,
            was: place(left, right),
            into: 0,
        };
    }
    let x = phase - 2;
    Reads {
        first: place(x / 5, left),
        last: place(right, x % 5),
        was: x.min(25),
        into: x.min(24),
    }
}

// A matrix with a place behind it, 25, which is zero, not strict: what is read outside the matrix.
#[derive(Clone, Copy)]
pub struct Framed {
    pub entries: [Bound; 26],
}

// The matrix with that place.
pub fn framed_of(old: [Bound; 25]) -> Framed
    ensures { result.entries ≡ framed_c old }
{
    let mut all = [Bound::ZERO; 26];
    all[..25].copy_from_slice(&old);
    Framed { entries: all }
}

// The entry b that was read at place x; outside the matrix zero, not strict.
pub fn inside(x: usize, b: Bound) -> Bound
    ensures { result ≡ inside_c x b }
{
    if x < 25 {
        return b;
    }
    Bound::ZERO
}

// What a phase compares: e + (j, i); e; or (k, i) + e + (j, l), two sums from the left, which the entry 5k + l takes where it is tighter;
// none past the clocks, which is tighter than nothing.
pub fn via(clocks: usize, phase: usize, bound: Bound, first: Bound, last: Bound) -> Bound
    ensures { result ≡ via_at clocks phase bound first last }
{
    if phase < 1 {
        return bound.sum(first);
    }
    if phase < 2 {
        return bound;
    }
    if clocks < (phase - 2) / 5 {
        return Bound::NONE;
    }
    if clocks < (phase - 2) % 5 {
        return Bound::NONE;
    }
    first.sum(bound).sum(last)
}

// Whether a phase is that of an entry past the clocks, which asks nothing.
pub fn outside(clocks: usize, phase: usize) -> bool
    ensures { result ≡ outside_c clocks phase }
{
    if phase < 2 {
        return false;
    }
    let entry = phase - 2;
    if clocks < entry / 5 {
        return true;
    }
    clocks < entry % 5
}
