// A place of the table that the caller lends: the piece of a zone, or a blank one. Every function is total, and its contract is an
// equation with a definition of specs/Table.
#![tactic(auto)]

ghost use Rattle.std.specs.Prelude.{◌≡◌, ◌<◌, length, get_or};
ghost use Rattle.cells.specs.Cells.{no_cell, cells_in, zone_of};
ghost use Rattle.windows_route.specs.Places.{zone_in};
ghost use Rattle.pieces.specs.Table.{piece_in, item_for};

use expr::{Bound, Expr, Ranges, Valuation};

// A place of the table (paper: piece): whether it is used; the first valuation that it holds (paper: the setting to start from); its
// inequalities, the first `count` of the list, each an expression that is at least 0, zeros past them; and its matrix, five rows of
// five: entry 5i + j bounds clock i - clock j.
// A mark, not an option: the caller lends the table of these, and `table_of` of specs/Pieces tells each place.
#[derive(Clone, Copy)]
pub struct Piece {
    pub used: bool,
    pub first: Valuation,
    pub count: usize,
    pub ineqs: [Expr; 24],
    pub bounds: [Bound; 25],
}

impl Piece {
    // A place that is not used: its first valuation zeros, no inequalities, all entries zero, not strict.
    pub const BLANK: Piece = Piece {
        used: false,
        first: Valuation::ZERO,
        count: 0,
        ineqs: [Expr::ZERO; 24],
        bounds: [Bound::ZERO; 25],
    };
}

// The piece of the zone at place p, of these ranges and with n inequalities.
fn piece_at(b: Ranges, cells: &[i32], marks: &[u8], p: usize, n: usize) -> Piece
    requires { (length cells.now ≡ 22500) × ((length marks.now ≡ 2250) × (p < 90)) }
    ensures { result ≡ piece_in b (zone_of n (get_or (cells_in cells.now marks.now) p no_cell)) }
{
    let at = 250 * p;
    let first = search::first(b, &cells[at..], n.min(24)).unwrap_or(Valuation::ZERO);
    let mut z = Piece {
        used: true,
        first,
        count: n,
        ineqs: [Expr::ZERO; 24],
        bounds: [Bound::ZERO; 25],
    };
    for i in 0..24 {
        z.ineqs[i] = inequalities::inequality(cells, 50 * p + i);
        z.bounds[i] = cells::bound_at(cells, marks, p, i);
    }
    z.bounds[24] = cells::bound_at(cells, marks, p, 24);
    z
}

// The item for place i of the table, with so many pieces: the piece of the zone at place i, or a blank one where i is past them.
pub fn item_for(
    b: Ranges,
    pieces: usize,
    i: usize,
    cells: &[i32],
    marks: &[u8],
    counts: &[usize],
) -> Piece
    requires { (length cells.now ≡ 22500) × ((length marks.now ≡ 2250) × (length counts.now ≡ 90)) }
    ensures { result ≡ item_for b pieces i (zone_in counts.now (cells_in cells.now marks.now) i) }
{
    if i < pieces.min(32) {
        return piece_at(b, cells, marks, i, counts[i]);
    }
    Piece::BLANK
}
