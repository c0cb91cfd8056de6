// Reads the records that are stored one after the other in `sweeps.bin`: the length of a sheet file
// (two bytes, the low one first) and its bytes, a count of valuations (one byte), and each valuation
// as four numbers of eight bytes. It writes a line for each record: the length, and what Sweep
// answers at each valuation as N/P/D, the answer's number, its place and a digest of its matrix (0 if it has none). The
// lines that it must write come from reference/.
#![tactic(auto)]

mod digest;

ghost use Rattle.std.specs.Prelude.{◌≤◌};

use answers::Numbered;
use std::io::Read;
use std::{fs, io};
use sweep::Numbers;

// The number with sign of the eight bytes from a place on, the low one first (two's complement).
fn number_at(b: [u8; 32], at: usize) -> i64
    requires { at ≤ 24 }
{
    i64::from_le_bytes([
        b[at],
        b[at + 1],
        b[at + 2],
        b[at + 3],
        b[at + 4],
        b[at + 5],
        b[at + 6],
        b[at + 7],
    ])
}

// Says that a record is not whole.
fn not_whole(rt: &impl Print) -> io::Result<bool> {
    println!(rt; " the last record is not whole")?;
    Ok(false)
}

// Writes what Sweep answers at a valuation.
fn print_answer(rt: &impl Print, file: &[u8], numbers: Numbers) -> io::Result<()> {
    let reply = sweep::sweep(file, numbers);
    let Numbered { number, place } = answers::sweep::numbered(reply.answer);
    print!(rt; " {number}/{place}/{}", digest::digest(reply.rows))
}

// Reads the next valuation and writes what Sweep answers, and answers whether it was there.
fn print_next_answer<R: Read>(rt: &impl Print, input: &mut R, file: &[u8]) -> io::Result<bool> {
    let mut bytes = [0u8; 32];
    if stored::read_full(input, &mut bytes)? < 32 {
        return Ok(false);
    }
    let p = number_at(bytes, 0);
    let q = number_at(bytes, 8);
    let r = number_at(bytes, 16);
    let s = number_at(bytes, 24);
    let numbers = Numbers { list: [p, q, r, s] };
    print_answer(rt, file, numbers)?;
    Ok(true)
}

// Writes the answers at the next valuations, that many, and answers whether all were there.
fn print_answers<R: Read>(
    rt: &impl Print,
    input: &mut R,
    file: &[u8],
    count: u8,
) -> io::Result<bool> {
    for _ in 0..count {
        if !print_next_answer(rt, input, file)? {
            return Ok(false);
        }
    }
    Ok(true)
}

// Writes the rest of the line of a file, whose valuations come next, and answers whether the record
// was whole.
fn print_line<R: Read>(rt: &impl Print, input: &mut R, file: &[u8]) -> io::Result<bool> {
    print!(rt; "{} bytes", file.len())?;
    let mut count = [0u8; 1];
    if stored::read_full(input, &mut count)? < 1 {
        return not_whole(rt);
    }
    if !print_answers(rt, input, file, count[0])? {
        return not_whole(rt);
    }
    print!(rt; "\n")?;
    Ok(true)
}

// Reads the next record and writes its line, and answers whether there was one.
fn print_next<R: Read>(rt: &impl Print, input: &mut R) -> io::Result<bool> {
    let mut length = [0u8; 2];
    if stored::read_full(input, &mut length)? < 2 {
        return Ok(false);
    }
    let n = stored::two_bytes(length[0], length[1]);
    let mut file = [0u8; 65536];
    let got = stored::read_full(input, &mut file[..n])?;
    if got < n {
        return not_whole(rt);
    }
    print_line(rt, input, &file[..n])
}

// Writes the lines of all stored records. A proved loop has to end, so its turns are a number that no
// run uses up.
fn print_all<R: Read>(rt: &impl Print, input: &mut R) -> io::Result<()> {
    for _ in 0..u64::MAX {
        if !print_next(rt, input)? {
            break;
        }
    }
    Ok(())
}

fn main(rt: HostRuntime) -> io::Result<()> {
    let mut input = fs::open(&rt, "sweeps.bin")?;
    print_all(&rt, &mut input)
}
