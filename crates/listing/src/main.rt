// Reads a sheet from standard input and prints what Windows found (paper 01, "Sheets to try"): how many pieces, kept and cut, and each
// piece; or the refusal and its place. If the input cannot be read or the output cannot be written, it says why on standard error and
// prints no more.
#![tactic(auto)]

mod zone;

ghost use Rattle.std.specs.Prelude.{◌≤◌, IfOk, length};

use answers::Numbered;
use answers::windows::{Counts, Refused};
use std::io;
use std::io::Read;
use windows::Piece;

// The line of the counts. It answers whether all was written, as each function below does.
fn print_counts(rt: &impl Print, counts: Counts) -> io::Result<()> {
    println!(rt;
        "pieces {} kept {} cut {}",
        counts.pieces, counts.kept, counts.cut
    )
}

// The lines of the pieces of a sheet with so many clocks.
fn print_pieces(rt: &impl Print, pieces: &[Piece], clocks: usize) -> io::Result<()> {
    for (k, z) in pieces.iter().enumerate() {
        zone::print_zone(rt, k, z, clocks)?;
    }
    Ok(())
}

// The line of a refusal.
fn print_refusal(rt: &impl Print, refused: Refused) -> io::Result<()> {
    let refusal = Numbered::from(refused);
    println!(rt; "refused {} place {}", refusal.number, refusal.place)
}

// How many clocks the sheet of a file has; none where the file is refused.
fn clocks_of(file: &[u8]) -> usize {
    match reading::read(file) {
        Ok(sheet) => sheet.clocks,
        Err(_) => 0,
    }
}

// What Windows found in a file.
fn print_listing(rt: &impl Print, file: &[u8]) -> io::Result<()> {
    let reply = tabled::windows(file, [Piece::BLANK; 40], 32);
    match reply.answer {
        Ok(counts) => {
            print_counts(rt, counts)?;
            print_pieces(rt, &reply.table[..counts.pieces.min(32)], clocks_of(file))
        }
        Err(refused) => print_refusal(rt, refused),
    }
}

// Whether the input has ended. At the end one more read gives 0; otherwise it fails, or it gives a byte that the file read so far lacks.
fn has_ended<R: Read>(input: &mut R) -> io::Result<bool> {
    let mut more = [0u8; 1];
    Ok(input.read(&mut more)? == 0)
}

// Reads the input until the file is full or the input ends, and answers how many bytes it put at the start of the file.
fn read_file<R: Read>(input: &mut R, file: &mut [u8]) -> io::Result<usize>
    ensures { IfOk result (λ n. n ≤ length file.new) }
{
    let n = stored::read_full(input, file)?;
    if n < file.len() && !has_ended(input)? {
        return Err(io::Error::from(io::ErrorKind::InvalidInput));
    }
    Ok(n)
}

// A sheet file has at most 4,096 bytes, so that one byte more is enough to know that it is too long.
fn main(rt: HostRuntime) -> io::Result<()> {
    let mut file = [0u8; 4097];
    let n = match read_file(&mut rt.stdin(), &mut file) {
        Ok(n) => n,
        Err(e) => return eprintln!(rt; "listing: read: {e}"),
    };
    match print_listing(&rt, &file[..n]) {
        Ok(()) => Ok(()),
        Err(e) => eprintln!(rt; "listing: write: {e}"),
    }
}
