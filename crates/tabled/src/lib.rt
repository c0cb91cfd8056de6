// Windows on a table by value, for programs: they have no table to lend of their own.
#![tactic(auto)]

ghost use Rattle.std.specs.Prelude.{◌≡◌, ◌≤◌, min};
ghost use Rattle.tabled.specs.On.{tabled_as, windows_on};

use answers::windows::{Counts, Refused};
use windows::Piece;

// What Windows answers, and the table after it.
#[derive(Clone, Copy)]
pub struct Reply {
    pub answer: Result<Counts, Refused>,
    pub table: [Piece; 40],
}

// What Windows answers to a sheet file on the first n places of the table, and the whole table then: the other places are as they were.
fn on_first(file: &[u8], table: [Piece; 40], n: usize) -> Reply
    requires { n ≤ 40 }
    ensures { tabled_as result ≡ windows_on file.now table n }
{
    let mut places = table;
    let answer = windows::windows(file, &mut places[..n]);
    Reply {
        answer,
        table: places,
    }
}

// The same for every n: of more than 40 it is the whole table.
pub fn windows(file: &[u8], table: [Piece; 40], n: usize) -> Reply
    ensures { tabled_as result ≡ windows_on file.now table (min n 40) }
{
    on_first(file, table, n.min(40))
}
