// The fields of two bytes (paper 01, "The sheet file"), with and without sign. Every function is total, and its contract is an equation
// with a definition of cursor/specs/Cursor.
#![tactic(auto)]

ghost use Rattle.std.specs.Prelude.{◌≡◌, ◌+◌, ◌*◌};
ghost use Rattle.cursor.specs.Cursor.{shifted, signed_of, word_taken, signed_taken, word_field, signed_field};

use cursor::{Cursor, byte_at, judged, stop, within};

// Two bytes as one number, the first being the low one.
pub fn word_of(low: u8, high: u8) -> u16
    ensures { result ≡ low + 256 * high }
{
    u16::from_le_bytes([low, high])
}

// The next two bytes of a body that ends at `end`, as a number without sign.
fn take_word(s: &[u8], end: usize, cursor: Cursor) -> Cursor
    ensures { result ≡ word_taken s.now end cursor }
{
    let at = cursor.at;
    if cursor.ok {
        if 2 <= end.saturating_sub(at) {
            Cursor {
                ok: true,
                at: at + 2,
                byte: 0,
                word: word_of(byte_at(s, at), byte_at(s, at + 1)),
            }
        } else {
            stop(end)
        }
    } else {
        cursor
    }
}

// The number plus 32,768 whose two's complement is `word`.
pub fn shifted(word: u16) -> u16
    ensures { result ≡ shifted word }
{
    word.wrapping_add(32768)
}

// The number of a signed field, from the number plus 32,768.
pub fn signed_of(word: u16) -> i16
    ensures { result ≡ signed_of word }
{
    (i32::from(word) - 32768) as i16
}

// The next two bytes as a number with sign, to which 32,768 is added.
fn take_signed(s: &[u8], end: usize, cursor: Cursor) -> Cursor
    ensures { result ≡ signed_taken s.now end cursor }
{
    let taken = take_word(s, end, cursor);
    if taken.ok {
        Cursor {
            ok: true,
            at: taken.at,
            byte: 0,
            word: shifted(taken.word),
        }
    } else {
        taken
    }
}

// A two-byte number without sign that must lie between two numbers, both included.
pub fn word_field(s: &[u8], end: usize, low: usize, high: usize, cursor: Cursor) -> Cursor
    ensures { result ≡ word_field s.now end low high cursor }
{
    let taken = take_word(s, end, cursor);
    let right = within(low, taken.word as usize, high);
    judged(cursor, taken, right)
}

// A two-byte number with sign; with 32,768 added it must lie between two numbers, both included.
pub fn signed_field(s: &[u8], end: usize, low: usize, high: usize, cursor: Cursor) -> Cursor
    ensures { result ≡ signed_field s.now end low high cursor }
{
    let taken = take_signed(s, end, cursor);
    let right = within(low, taken.word as usize, high);
    judged(cursor, taken, right)
}
