// The contents of a file, its entries judged in order.
ghost use Rattle.std.specs.Prelude.{◌≡◌};
ghost use Rattle.contents.specs.Contents.{sized, entry_field, most_parameters, contents_of};

use super::Contents;
use cursor::{Cursor, byte_field};
use words::word_field;

// Whether the file has 22 to 4,096 bytes.
pub fn sized(file: &[u8]) -> bool
    ensures { result ≡ sized file.now }
{
    (22..=4096).contains(&file.len())
}

// One entry of the contents, whose body starts at `start`: kind, offset and length. The kind is the number that has to stand in the file;
// the length is at least `least`.
fn entry_field(file: &[u8], kind: usize, start: usize, least: usize, cursor: Cursor) -> Cursor
    ensures { result ≡ entry_field file.now kind start least cursor }
{
    let kinds = byte_field(file, 22, kind, kind, cursor);
    let offset = word_field(file, 22, start, start, kinds);
    let most = file.len().saturating_sub(start);
    word_field(file, 22, least, most, offset)
}

// The contents of the file, its fields judged in order.
pub fn contents_of(file: &[u8]) -> Contents
    ensures { result ≡ contents_of file.now }
{
    let start = Cursor {
        ok: true,
        at: 0,
        byte: 0,
        word: 0,
    };
    let version = byte_field(file, 22, 1, 2, start);
    let count = byte_field(file, 22, 4, 4, version);
    let one = entry_field(file, 1, 22, 0, count);
    let first = 22 + u32::from(one.word);
    let two = entry_field(file, 2, first as usize, 0, one);
    let second = first + u32::from(two.word);
    let three = entry_field(file, 3, second as usize, 0, two);
    let third = second + u32::from(three.word);
    let rest = file.len().saturating_sub(third as usize);
    let four = entry_field(file, 4, third as usize, rest, three);
    Contents {
        cursor: four,
        version: version.byte,
        first,
        second,
        third,
    }
}

// How many parameters a sheet of this version has at most, and how many coefficients a guard has.
pub fn most_parameters(version: u8) -> u8
    ensures { result ≡ most_parameters version }
{
    if version == 2 { 4 } else { 3 }
}
