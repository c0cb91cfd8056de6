// What Sweep answers.
ghost use Rattle.std.specs.Prelude.{◌≡◌};
ghost use Rattle.answers.specs.declared.sweep.Refused.TheVariants.{File};
ghost use Rattle.answers.specs.Numbers.{refused_as, sweep_as};

use crate::Numbered;
use crate::file::Refusal;

// A run follows the route, or the sheet is void: none does.
#[derive(Clone, Copy, PartialEq, Eq)]
pub enum Found {
    Run,
    Void,
}

// Why Sweep tells nothing: the file is refused by 2 to 5 or 16, or the parameter with this index lies outside its range (6).
#[derive(Clone, Copy, PartialEq, Eq)]
pub enum Refused {
    File(Refusal),
    Outside(usize),
}

impl From<Refusal> for Refused {
    ghost from_gives = { λ refusal refused. refused ≡ File refusal };

    fn from(why: Refusal) -> Refused {
        Refused::File(why)
    }
}

// The refusal's number and place.
impl From<Refused> for Numbered {
    ghost from_gives = { λ refused numbered. numbered ≡ refused_as refused };

    fn from(refused: Refused) -> Numbered {
        match refused {
            Refused::File(refusal) => Numbered::from(refusal),
            Refused::Outside(index) => Numbered {
                number: 6,
                place: index,
            },
        }
    }
}

// The answer's number, 0 a run, 1 void, else the refusal; and the refusal's place, 0 for a run or void.
pub fn numbered(answer: Result<Found, Refused>) -> Numbered
    ensures { result ≡ sweep_as answer }
{
    match answer {
        Ok(Found::Run) => Numbered {
            number: 0,
            place: 0,
        },
        Ok(Found::Void) => Numbered {
            number: 1,
            place: 0,
        },
        Err(refused) => Numbered::from(refused),
    }
}
