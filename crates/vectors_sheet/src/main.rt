// Reads the sheet files that are stored one after the other in `sheets.bin`, each as its length
// (two bytes, the low one first) and its bytes, and writes a line for each: `refused R place P`, or
// `read P C L T R digest D` with the counts of parameters, clocks, locations, transitions and route
// entries and a digest of the whole sheet; then `bodies D` with a digest of what `body` hands out.
// The lines that it must write come from reference/.
#![tactic(auto)]

mod digest;

use answers::Numbered;
use answers::file::Refusal;
use sheet::Sheet;
use std::io::Read;
use std::{fs, io};

// Writes the counts and the digest of a sheet that was read.
fn print_sheet(rt: &impl Print, sheet: Sheet) -> io::Result<()> {
    print!(rt; "read {} {}", sheet.parameters, sheet.clocks)?;
    print!(rt; " {} {}", sheet.locations, sheet.transitions)?;
    print!(rt; " {} digest {}", sheet.moves, digest::digest(sheet))
}

// Writes what reading a file gave.
fn print_reading(rt: &impl Print, reading: Result<Sheet, Refusal>) -> io::Result<()> {
    match reading {
        Ok(sheet) => print_sheet(rt, sheet),
        Err(refusal) => {
            let Numbered { number, place } = Numbered::from(refusal);
            print!(rt; "refused {number} place {place}")
        }
    }
}

// Writes the line of a file.
fn print_line(rt: &impl Print, file: &[u8]) -> io::Result<()> {
    print_reading(rt, reading::read(file))?;
    println!(rt; " bodies {}", digest::bodies(file))
}

// Reads the next stored file and writes its line, and answers whether there was one.
fn print_next<R: Read>(rt: &impl Print, input: &mut R) -> io::Result<bool> {
    let mut length = [0u8; 2];
    if stored::read_full(input, &mut length)? < 2 {
        return Ok(false);
    }
    let n = stored::two_bytes(length[0], length[1]);
    let mut file = [0u8; 65536];
    let got = stored::read_full(input, &mut file[..n])?;
    if got < n {
        println!(rt; "the last file is not whole")?;
        return Ok(false);
    }
    print_line(rt, &file[..n])?;
    Ok(true)
}

// Writes the lines of all stored files. A proved loop has to end, so its turns are a number that no
// run uses up.
fn print_all<R: Read>(rt: &impl Print, input: &mut R) -> io::Result<()> {
    for _ in 0..u64::MAX {
        if !print_next(rt, input)? {
            break;
        }
    }
    Ok(())
}

fn main(rt: HostRuntime) -> io::Result<()> {
    let mut input = fs::open(&rt, "sheets.bin")?;
    print_all(&rt, &mut input)
}
