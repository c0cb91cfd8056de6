// Reads the records that are stored one after the other in `windows.bin`: the length of a sheet file (two bytes, the low one
// first), its bytes, and how many places of the table are lent (one byte). It writes a line for each record: the length, what
// Windows answers as R/P, the number and the place, then how many pieces, kept and cut, a digest of the lent places, and one of the
// tests of single guards on the pieces (`tests`). No place of the table is blank before the call. The lines that it must write come from
// reference/.
#![tactic(auto)]

mod digest;
mod tests;

ghost use Rattle.std.specs.Prelude.{◌≤◌};

use answers::windows::Counts;
use expr::{Bound, Expr, Valuation};
use std::io::Read;
use std::{fs, io};
use windows::Piece;

// The counts of a refusal.
const NO_COUNTS: Counts = Counts {
    pieces: 0,
    kept: 0,
    cut: 0,
};

// A table with no blank place.
fn filled() -> [Piece; 40] {
    let e = Expr {
        constant: -7,
        coefs: [5, -3, 2, -9],
    };
    let b = Bound {
        none: true,
        strict: true,
        expr: e,
    };
    let z = Piece {
        used: true,
        first: Valuation {
            numbers: [4, -6, 8, -1],
        },
        count: 24,
        ineqs: [e; 24],
        bounds: [b; 25],
    };
    [z; 40]
}

// Says that a record is not whole.
fn not_whole(rt: &impl Print) -> io::Result<bool> {
    println!(rt; "the last record is not whole")?;
    Ok(false)
}

// Writes the line of a file where n places are lent.
fn print_line(rt: &impl Print, file: &[u8], n: usize) -> io::Result<()>
    requires { n ≤ 40 }
{
    let reply = tabled::windows(file, filled(), n);
    let numbered = answers::windows::numbered(reply.answer);
    let counts = reply.answer.unwrap_or(NO_COUNTS);
    let places = digest::digest(&reply.table[..n]);
    let tests = match reading::read(file) {
        Ok(sheet) => tests::digest(sheet, &reply.table[..counts.pieces.min(40)]),
        Err(_) => 0,
    };
    print!(rt;
        "{} bytes {}/{}",
        file.len(),
        numbered.number,
        numbered.place
    )?;
    print!(rt; " {} {} {}", counts.pieces, counts.kept, counts.cut)?;
    println!(rt; " {places} {tests}")
}

// Reads the next record and writes its line, and answers whether there was one.
fn print_next<R: Read>(rt: &impl Print, input: &mut R) -> io::Result<bool> {
    let mut length = [0u8; 2];
    if stored::read_full(input, &mut length)? < 2 {
        return Ok(false);
    }
    let n = usize::from(u16::from_le_bytes(length));
    let mut file = [0u8; 65536];
    if stored::read_full(input, &mut file[..n])? < n {
        return not_whole(rt);
    }
    let mut places = [0u8; 1];
    if stored::read_full(input, &mut places)? < 1 {
        return not_whole(rt);
    }
    print_line(rt, &file[..n], usize::from(places[0]).min(40))?;
    Ok(true)
}

// Writes the lines of all stored records. A proved loop has to end: its turns are more than any run uses up.
fn print_all<R: Read>(rt: &impl Print, input: &mut R) -> io::Result<()> {
    for _ in 0..u64::MAX {
        if !print_next(rt, input)? {
            return Ok(());
        }
    }
    Ok(())
}

fn main(rt: HostRuntime) -> io::Result<()> {
    let mut input = fs::open(&rt, "windows.bin")?;
    print_all(&rt, &mut input)
}
