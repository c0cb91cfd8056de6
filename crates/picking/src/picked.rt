// Places of ranges that have several numbers.
ghost use Rattle.std.specs.Prelude.{◌≡◌, true, false, ◌<◌, ◌≤ℤ◌, ◌<ℤ◌, IfSome, IfNone};
ghost use Rattle.corners.specs.Boxes.{Points, Wide, Two};

use expr::{PARAMETERS, Range, Ranges};

// Whether a range has several numbers.
fn several(r: Range) -> bool
    ensures yes { result ≡ true → r.low <ℤ r.high }
    ensures no { result ≡ false → r.high ≤ℤ r.low }
{
    r.low < r.high
}

// Place i, if its range has several numbers and fewer than that at w; else w.
fn narrower(b: Ranges, w: usize, i: usize) -> usize
    requires { (w < 4) × ((i < 4) × Wide w b.list) }
    ensures { (result < 4) × Wide result b.list }
{
    let r = b.list[i];
    let s = b.list[w];
    if several(r) {
        if widths::width(r) < widths::width(s) {
            return i;
        }
    }
    w
}

// The place of the range with the fewest numbers among those that have several, the first of these.
pub fn narrowest(b: Ranges) -> Option<usize>
    ensures some { IfSome result (λ w. (w < 4) × Wide w b.list) }
    ensures none { IfNone result (Points 4 b.list) }
{
    let first = corners::wide(b, 0)?;
    let mut w = first;
    for i in first + 1..PARAMETERS {
        w = narrower(b, w, i);
    }
    Some(w)
}

// A place but w whose range has several numbers; some place but w if there is none.
pub fn other(b: Ranges, w: usize) -> usize
    ensures { (result < 4) × (w ≡ result → ⊥) }
{
    for t in 0..PARAMETERS {
        if t != w {
            if several(b.list[t]) {
                return t;
            }
        }
    }
    if w == 0 {
        return 1;
    }
    0
}

// Whether i is a third place behind w and t, and r has several numbers.
fn third(r: Range, i: usize, w: usize, t: usize) -> bool
    ensures { result ≡ false → (i ≡ w → ⊥) → (i ≡ t → ⊥) → r.high ≤ℤ r.low }
{
    if i == w {
        return false;
    }
    if i == t {
        return false;
    }
    several(r)
}

// Whether no range but those at w and t has several numbers.
pub fn two(b: Ranges, w: usize, t: usize) -> bool
    ensures { result ≡ true → Two w t b.list }
{
    for i in 0..PARAMETERS {
        let r = b.list[i];
        if third(r, i, w, t) {
            return false;
        }
    }
    true
}
