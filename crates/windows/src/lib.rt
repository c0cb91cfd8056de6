// Windows: the ranges of a sheet's parameters (paper: allowances) cut into zones (paper: pieces), listed in a table that the caller lends.
//
// The contract of `windows` is an equation with `reply_of` of windows_reply/specs/Reply and `table_of` of pieces/specs/Pieces, for every
// file and every table.
#![tactic(auto)]

mod table;

ghost use Rattle.std.specs.Prelude.{◌≡◌, length};
ghost use Rattle.windows_reply.specs.Reply.{answered_as, answered_of, reply_of};
ghost use Rattle.pieces.specs.Pieces.{table_of};

use answers::windows::{Counts, Refused};
pub use pieces::Piece;

// What Windows answers to a sheet file; the table has the pieces in order, the rest of it blank, and with a refusal it is all blank.
pub fn windows(file: &[u8], table: &mut [Piece]) -> Result<Counts, Refused>
    ensures result_value { answered_as result ≡ answered_of (reply_of file.now (length table.old)) }
    ensures table_after { table.new
        ≡ table_of (reply_of file.now (length table.old)) (length table.old) }
{
    let mut cells = [0i32; 22500];
    let mut marks = [0u8; 2250];
    let mut counts = [0usize; 90];
    match windows_reply::work_for(file, table.len(), &mut cells, &mut marks, &mut counts) {
        Ok(work) => {
            table::store(
                table,
                work.ranges,
                work.counts.pieces,
                &cells,
                &marks,
                &counts,
            );
            Ok(work.counts)
        }
        Err(refused) => {
            table.fill(Piece::BLANK);
            Err(refused)
        }
    }
}
