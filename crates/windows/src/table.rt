// The table that the caller lends.
ghost use Rattle.std.specs.Prelude.{◌≡◌, length};
ghost use Rattle.pieces.specs.Table.{work_in, items_of};

use expr::Ranges;
use pieces::{Piece, item_for};

// Stores the pieces into the table, blanks behind them.
pub(crate) fn store(
    table: &mut [Piece],
    b: Ranges,
    pieces: usize,
    cells: &[i32],
    marks: &[u8],
    counts: &[usize],
)
    requires { (length cells.now ≡ 22500) × ((length marks.now ≡ 2250) × (length counts.now ≡ 90)) }
    ensures { table.new
        ≡ items_of (work_in b pieces cells.now marks.now counts.now) (length table.old) }
{
    for i in 0..table.len() {
        table[i] = item_for(b, pieces, i, cells, marks, counts);
    }
}
