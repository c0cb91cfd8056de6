// Sweep for programs in C: see include/sweep.h.
#![tactic(auto)]

ghost use Rattle.std.specs.Prelude.{◌≡◌, pos, ◌<◌, ◌^◌, [], ◌∷◌};
ghost use Rattle.sweep.specs.Reply.{reply_of};

use sweep::Numbers;

// x as a signed number.
fn signed(x: usize) -> i64
    requires { x < 2 ^ 63 }
    ensures { result ≡ pos x }
{
    x as i64
}

// 0 if a run follows the sheet's route with its parameters at p1 to p4, 1 if none does, else the number of the refusal.
#[unsafe(no_mangle)]
pub extern "C" fn sweep_sheet(sheet: &[u8], p1: i64, p2: i64, p3: i64, p4: i64) -> i64
    ensures { result ≡ pos (reply_of sheet.now (p1 ∷ p2 ∷ p3 ∷ p4 ∷ [])).answer.number }
{
    let numbers = Numbers {
        list: [p1, p2, p3, p4],
    };
    let reply = sweep::sweep(sheet, numbers);
    signed(answers::sweep::numbered(reply.answer).number)
}
