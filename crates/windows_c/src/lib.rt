// How many pieces Windows lists, for the benchmark, which calls it from outside.
#![tactic(auto)]

ghost use Rattle.std.specs.Prelude.{◌≡◌, ◌≤◌};
ghost use Rattle.answers.specs.Numbers.{counts_of};
ghost use Rattle.windows_reply.specs.Reply.{answered_as, answered_of, reply_of};
ghost use Rattle.windows_c.specs.Count.{count_of};

use answers::Numbered;
use answers::windows::{Counts, Refused};
use windows::Piece;

// The number of pieces, or minus the refusal's number.
fn count(answer: Result<Counts, Refused>) -> i64
    requires { (counts_of answer).pieces ≤ 32 }
    ensures { result ≡ count_of (answered_as answer) }
{
    match answer {
        Ok(counts) => counts.pieces as i64,
        Err(refused) => -(Numbered::from(refused).number as i64),
    }
}

// The number of pieces that Windows lists of a sheet file in a table of 32 places, or minus the number of the refusal.
#[unsafe(no_mangle)]
pub extern "C" fn windows_count(file: &[u8]) -> i64
    ensures { result ≡ count_of (answered_of (reply_of file.now 32)) }
{
    let reply = tabled::windows(file, [Piece::BLANK; 40], 32);
    count(reply.answer)
}
