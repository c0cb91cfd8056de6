// A stack of zones, each given by its place in a list and how many of its inequalities count.
ghost use Rattle.std.specs.Prelude.{◌≡◌, ℕ, ◌≤◌, ◌<◌, length, get_or, take};
ghost use Rattle.expr.specs.declared.range.Ranges.{Ranges};
ghost use Rattle.kept.specs.Stacks.{held_in, no_item, held_on, top_of, step_of, zones_in};

// The first `count` inequalities of the zone at place `at`.
#[derive(Clone, Copy)]
pub(crate) struct Item {
    pub at: usize,
    pub count: usize,
}

// The first `count` items of the list, and the place of the zone that comes next.
#[derive(Clone, Copy)]
pub(crate) struct Stack {
    pub next: usize,
    pub count: usize,
    pub list: [Item; 32],
}

impl Stack {
    const EMPTY: Stack = Stack {
        next: 0,
        count: 0,
        list: [Item { at: 0, count: 0 }; 32],
    };
}

// The two items on top, if they have as many inequalities: their places, and how many; zeros otherwise.
#[derive(Clone, Copy)]
struct Top {
    below: usize,
    top: usize,
    level: usize,
}

impl Top {
    const NONE: Top = Top {
        below: 0,
        top: 0,
        level: 0,
    };
}

// The top of the stack.
fn highest(s: Stack) -> Top
    requires { s.count ≤ 32 }
    ensures { result ≡ top_of s }
{
    let n = s.count;
    if n < 2 {
        return Top::NONE;
    }
    let a = s.list[n - 2];
    let b = s.list[n - 1];
    if a.count == b.count {
        return Top {
            below: a.at,
            top: b.at,
            level: a.count,
        };
    }
    Top::NONE
}

// The stack after a step: the two items on top as one where a split has made them of it (`joined`), else the next zone, which has `count`
// inequalities, on top, if n are not there yet.
fn step(s: Stack, t: Top, joined: bool, n: usize, count: usize) -> Stack
    requires { (s.count ≤ n) × ((n ≤ 32) × (s.next ≤ n)) }
    ensures { result ≡ step_of s t joined n count }
{
    let mut r = s;
    let k = s.count;
    if joined {
        if k < 2 {
            return s;
        }
        r.list[k - 2] = Item {
            at: t.below,
            count: t.level.saturating_sub(1),
        };
        r.count = k - 1;
        return r;
    }
    let i = s.next;
    r.next = i + 1;
    if i < n {
        if k < n {
            r.list[k] = Item { at: i, count };
            r.count = k + 1;
        }
    }
    r
}

// The first n zones with whole splits undone, 32 at most.
pub(crate) fn stacked(cells: &[i32], counts: &[usize], n: usize) -> Stack
    requires { (length cells.now ≡ 22500) × (length counts.now ≡ 90) }
    ensures count_bound { (result.count ≤ 32) × ((k : ℕ) → k < result.count → (get_or result.list k no_item).at < 32) }
    ensures same { (b : Ranges) → held_on b (zones_in cells.now counts.now) result.list result.count
        ≡ held_in b (take n (zones_in cells.now counts.now)) }
{
    let m = n.min(32);
    let mut s = Stack::EMPTY;
    // No `for`: a turn puts the next zone on the stack or joins the two on top, so that their number is not known before.
    while s.next <= m {
        let t = highest(s);
        let joined = siblings::siblings(cells, t.below, t.top, t.level);
        let next = s.next;
        s = step(s, t, joined, m, counts[next]);
    }
    s
}
