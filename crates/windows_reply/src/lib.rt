// What Windows works out for a file: the counts, and the zones in lists that are lent (crate cells); or why it refuses.
#![tactic(auto)]

ghost use Rattle.std.specs.Prelude.{◌≡◌, ◌≤◌, length};
ghost use Rattle.valuations.specs.Valuations.{widths};
ghost use Rattle.expr.specs.Records.{range_list};
ghost use Rattle.index.specs.SheetIn.{sheet_in};
ghost use Rattle.sheet.specs.WellFormed.{WellFormed};
ghost use Rattle.windows_route.specs.Ended.{Zeros, ended_z};
ghost use Rattle.windows_reply.specs.Reply.{sheet_reply, reply_of};
ghost use Rattle.windows_reply.specs.Work.{shown, shown_of, refused_by, listed_c};

use answers::windows::{Counts, Refused};
use expr::Ranges;
use index::Index;
use windows_route::Ended;

// What is worked out: the counts, and the ranges that were cut; the zones are the first in the lists, as many as there are pieces.
#[derive(Clone, Copy)]
pub struct Worked {
    pub counts: Counts,
    pub ranges: Ranges,
}

// Refusal 7 or 8 at a visit.
fn refused(number: usize, visit: usize) -> Refused
    ensures { result ≡ refused_by number visit }
{
    if number == 7 {
        Refused::Zones(visit)
    } else {
        Refused::Inequalities(visit)
    }
}

// The reply for the zones that a route leaves, or for their refusal.
fn listed(
    b: Ranges,
    end: Ended,
    cells: &[i32],
    marks: &[u8],
    counts: &[usize],
) -> Result<Worked, Refused>
    requires { (widths (range_list b) ≤ 262144) × ((length cells.now ≡ 22500) × (length counts.now ≡ 90)) }
    ensures { shown result cells.now marks.now counts.now
        ≡ listed_c b (ended_z end cells.now marks.now counts.now) }
{
    if 0 < end.refusal {
        return Err(refused(end.refusal, end.visit));
    }
    let kept = kept::kept(b, cells, counts, end.count);
    let all = counting::count(b, cells, 0);
    Ok(Worked {
        counts: Counts {
            pieces: end.count,
            kept,
            cut: all.saturating_sub(kept),
        },
        ranges: b,
    })
}

// The reply for the sheet of an index into a file.
fn cut_file(
    file: &[u8],
    ix: Index,
    cells: &mut [i32],
    marks: &mut [u8],
    counts: &mut [usize],
) -> Result<Worked, Refused>
    requires { WellFormed (sheet_in file.now ix) × Zeros cells.old marks.old counts.old }
    ensures { shown result cells.new marks.new counts.new
        ≡ shown_of (sheet_reply (sheet_in file.now ix)) }
{
    let b = ix.ranges;
    let end = windows_route::walk(file, ix, cells, marks, counts);
    listed(b, end, cells, marks, counts)
}

// The reply for a file and a table of so many places. The lists are zeros before it.
pub fn work_for(
    file: &[u8],
    places: usize,
    cells: &mut [i32],
    marks: &mut [u8],
    counts: &mut [usize],
) -> Result<Worked, Refused>
    requires { Zeros cells.old marks.old counts.old }
    ensures { shown result cells.new marks.new counts.new
        ≡ shown_of (reply_of file.now places) }
{
    if places < 32 {
        return Err(Refused::Small);
    }
    let ix = indexing::indexed(file)?;
    cut_file(file, ix, cells, marks, counts)
}
