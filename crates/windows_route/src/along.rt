// The zones of a sheet along its route.
ghost use Rattle.std.specs.Prelude.{◌≡◌, cond, ltb, ◌+◌, ◌<◌};
ghost use Rattle.index.specs.SheetIn.{sheet_in};
ghost use Rattle.segments.specs.Walked.{zones_all};
ghost use Rattle.windows_route.specs.Ended.{Zeros, ended_z};

use guards::Guard;
use index::Index;
use running::Task;
use zones::{Hint, Told, Zone};

// How the walk ends: the refusal, 0 for none, its visit, and how many zones are listed.
#[derive(Clone, Copy)]
pub struct Ended {
    pub refusal: usize,
    pub visit: usize,
    pub count: usize,
}

// Where zone x stands that is to be taken up, `kept` being listed: what is listed has overwritten the first of them, which were spared.
fn place_of(x: usize, kept: usize) -> usize
    requires { x < 32 }
    ensures { result ≡ cond (ltb x kept) (32 + x) x }
{
    if x < kept {
        return 32 + x;
    }
    x
}

// The zones after the whole route, or the first refusal that is met. The zones stand as numbers in one list (crate cells), with what is
// known of each: at places 0 to 31 those that are listed or still to be taken up, at 32 to 63 those that were overwritten before they were
// taken up, at 64 to 88 a stack of parts that are still to be worked on, and at 89 the zone that they are parts of. A step goes over
// the zones in order; a zone makes a part, and what is kept goes to the front of the list.
//
// The lists are zeros before it. Where nothing is refused, they have the zones that are listed then at their first places.
pub fn walk(
    file: &[u8],
    ix: Index,
    cells: &mut [i32],
    marks: &mut [u8],
    counts: &mut [usize],
) -> Ended
    requires { Zeros cells.old marks.old counts.old }
    ensures { ended_z result cells.new marks.new counts.new ≡ zones_all (sheet_in file.now ix) }
{
    let b = ix.ranges;
    let clocks = ix.clocks as usize;
    let end = segments::moves(ix) + 2;
    let first = segments::segment_at(file, ix, 0, index::location_at(file, ix, 0));
    let mut here = first.there;
    let mut steps = first.steps;
    let corner = holding::first_held(b, Zone::BLANK);
    let mut hints = [zones::hint_of(b, Zone::BLANK, corner); 64];
    let mut tasks = [Task::START; 25];
    let mut waits = [Hint::NONE; 25];
    let mut guard = running::of_guard(clocks, Guard::BLANK);
    let mut s = passing::begun(0, 1);
    let mut k = 0;
    // No counting loop: a turn works on a part, takes up a zone, goes on to the next step or, now and then, to segment k + 1.
    while k < end {
        if s.j < steps.count {
            if 0 < s.depth {
                let d = s.depth - 1;
                let top = 64 + d;
                let n = counts[top];
                let stop = running::run(cells, marks, top, 89, n, waits[d], guard, tasks[d]);
                let t = stop.task;
                let hint = stop.hint;
                let refusal = passing::number(t.halt, s.kept);
                if 0 < refusal {
                    return Ended {
                        refusal,
                        visit: s.visit,
                        count: 0,
                    };
                }
                if t.halt.is_split() {
                    parting::halved(cells, marks, top, 89, n, guard, t);
                    let no = parting::hint_at(b, cells, marks, top, n + 1, hint);
                    let yes = parting::hint_at(b, cells, marks, top + 1, n + 1, hint);
                    counts[top] = n + 1;
                    counts[top + 1] = n + 1;
                    let below = running::answered(t, Told::No);
                    tasks[d] = below;
                    let above = running::answered(t, Told::Yes);
                    tasks[d + 1] = above;
                    waits[d] = no;
                    waits[d + 1] = yes;
                    s = passing::pushed(s);
                } else if t.halt.is_kept() {
                    let at = s.kept;
                    let count = counts[at];
                    let known = hints[at];
                    cells::copy(cells, marks, at, 32 + at);
                    counts[32 + at] = count;
                    hints[32 + at] = known;
                    cells::copy(cells, marks, top, at);
                    counts[at] = n;
                    hints[at] = hint;
                    s = passing::listed(s);
                } else {
                    s = passing::dropped(s);
                }
            } else {
                let j = s.j;
                let step = steps.list[j];
                let x = s.i;
                if x < s.n {
                    let from = place_of(x, s.kept);
                    let count = counts[from];
                    let here = x == s.kept;
                    let stood = staying::stay(
                        cells,
                        marks,
                        from,
                        clocks,
                        step,
                        count,
                        hints[from],
                        here,
                    );
                    let known = stood.hint;
                    if stood.kept {
                        hints[x] = known;
                        s = passing::passed_by(s);
                    } else {
                        let task = steps::taken(cells, marks, from, clocks, step);
                        counts[64] = count;
                        tasks[0] = task;
                        waits[0] = known;
                        if let Some(asked) = steps::asked(step) {
                            guard = running::of_guard(clocks, asked);
                        }
                        s = passing::loaded(s);
                    }
                } else {
                    s = passing::stepped(s, step);
                }
            }
        } else {
            k += 1;
            let next = segments::segment_at(file, ix, k, here);
            let there = next.there;
            here = there;
            let ahead = next.steps;
            steps = ahead;
            s = passing::begun(s.visit, s.n);
        }
    }
    Ended {
        refusal: 0,
        visit: s.visit,
        count: s.n,
    }
}
