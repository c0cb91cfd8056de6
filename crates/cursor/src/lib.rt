// The fields of a file (paper 01, "The sheet file"), read by a cursor that stops at the first wrong one. Each function takes where
// reading stands and returns where it stands then; a stopped cursor passes through. Every function is total, and its contract is an
// equation with a definition of specs/Cursor.
#![tactic(auto)]

ghost use Rattle.std.specs.Prelude.{◌≡◌, get_or};
ghost use Rattle.cursor.specs.Cursor.{
  within,
  stop,
  judged,
  byte_taken,
  byte_field,
  below_field,
  finished,
};

// Where reading stands. If `ok`, `at` is the next byte, and the field read last is in `byte` or in
// `word`; otherwise `at` is the place of the first wrong field, and nothing more is read.
#[derive(Clone, Copy)]
pub struct Cursor {
    pub ok: bool,
    pub at: usize,
    pub byte: u8,
    pub word: u16,
}

// The byte at a place, and 0 past the end.
pub fn byte_at(s: &[u8], at: usize) -> u8
    ensures { result ≡ get_or s.now at 0 }
{
    if at < s.len() { s[at] } else { 0 }
}

// Whether a number lies between two others, both included.
pub fn within(low: usize, value: usize, high: usize) -> bool
    ensures { result ≡ within low value high }
{
    low <= value && value <= high
}

// Reading has stopped at a place.
pub fn stop(at: usize) -> Cursor
    ensures { result ≡ stop at }
{
    Cursor {
        ok: false,
        at,
        byte: 0,
        word: 0,
    }
}

// The field that was taken is right, or reading stops where it started.
pub fn judged(before: Cursor, taken: Cursor, right: bool) -> Cursor
    ensures { result ≡ judged before taken right }
{
    if taken.ok {
        if right { taken } else { stop(before.at) }
    } else {
        taken
    }
}

// The next byte of a body that ends at `end`.
fn take_byte(s: &[u8], end: usize, cursor: Cursor) -> Cursor
    ensures { result ≡ byte_taken s.now end cursor }
{
    let at = cursor.at;
    if cursor.ok {
        if at < end {
            Cursor {
                ok: true,
                at: at + 1,
                byte: byte_at(s, at),
                word: 0,
            }
        } else {
            stop(end)
        }
    } else {
        cursor
    }
}

// A byte that must lie between two numbers, both included.
pub fn byte_field(s: &[u8], end: usize, low: usize, high: usize, cursor: Cursor) -> Cursor
    ensures { result ≡ byte_field s.now end low high cursor }
{
    let taken = take_byte(s, end, cursor);
    let right = within(low, taken.byte as usize, high);
    judged(cursor, taken, right)
}

// A byte that must be below a count.
pub fn below_field(s: &[u8], end: usize, count: u8, cursor: Cursor) -> Cursor
    ensures { result ≡ below_field s.now end count cursor }
{
    let taken = take_byte(s, end, cursor);
    judged(cursor, taken, taken.byte < count)
}

// A body's end: reading stops at the first byte left over.
pub fn finished(end: usize, cursor: Cursor) -> Cursor
    ensures { result ≡ finished end cursor }
{
    let at = cursor.at;
    if cursor.ok {
        if at < end { stop(at) } else { cursor }
    } else {
        cursor
    }
}
