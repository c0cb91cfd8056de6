// What the programs share: reading a stored length and what it counts, a number's magnitude, and digests of results, which start at 0.
#![tactic(auto)]

ghost use Rattle.std.specs.Prelude.{ℕ, ◌+◌, ◌*◌, ◌<◌, ◌≤◌, ◌≡◌, IfOk, OnErr, length, take, nat_abs};
ghost use Rattle.std.specs.Io.KnownBytes.{Consumes, IsAtEnd};
ghost use Rattle.stored.specs.Digest.{with_number, with_signed};

use std::io;
use std::io::Read;

// Reads until buf is full or the input ends, and answers how many bytes it put at the start of buf: the input's next bytes, in order, and
// all that it had where buf is not full. Where a read fails, what was read until then is at the start of buf, and no byte is lost.
pub fn read_full<R: Read>(input: &mut R, buf: &mut [u8]) -> io::Result<usize>
    ensures fits { IfOk result (λ n. n ≤ length buf.new) }
    ensures bytes { IfOk result (λ n. Consumes (R.remaining input.old) (R.remaining input.new) (take n buf.new)) }
    ensures end { IfOk result (λ n. n < length buf.new → IsAtEnd (R.remaining input.new)) }
    ensures none_lost { OnErr result ((n : ℕ) × (n ≤ length buf.new)
        × Consumes (R.remaining input.old) (R.remaining input.new) (take n buf.new)) }
{
    // By `read`: std's `read_exact` says little of the bytes that it read where it fails.
    let mut done = 0;
    while done < buf.len() {
        let n = input.read(&mut buf[done..])?;
        if n == 0 {
            return Ok(done);
        }
        done += n;
    }
    Ok(done)
}

// The number of two bytes, the low one first.
pub fn two_bytes(low: u8, high: u8) -> usize
    ensures value { result ≡ low + 256 * high }
    ensures upper_bound { result < 65536 }
{
    usize::from(u16::from_le_bytes([low, high]))
}

// The number without its sign.
pub fn magnitude(x: i64) -> u64
    ensures { result ≡ nat_abs x }
{
    x.unsigned_abs()
}

// The digest with one more number.
pub fn with_number(h: u64, x: u64) -> u64
    ensures { result ≡ with_number h x }
{
    ((h % 1000000007) * 1000003 + x % 1000000007) % 1000000007
}

// The digest with a number that may be negative.
pub fn with_signed(h: u64, x: i64) -> u64
    ensures { result ≡ with_signed h x }
{
    if x < 0 {
        return with_number(with_number(h, 1), magnitude(x) - 1);
    }
    with_number(with_number(h, 0), magnitude(x))
}
