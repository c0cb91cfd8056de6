// Whether a sheet file is refused, and why.
ghost use Rattle.std.specs.Prelude.{◌≡◌};
ghost use Rattle.answers.specs.Numbers.{refusal_as, checked_as};

use crate::Numbered;

// Why a file is refused, with the place where there is one: Size, 2; Contents, 3; Body, 4; Valuations, 16; Route, 5.
#[derive(Clone, Copy, PartialEq, Eq)]
pub enum Refusal {
    Size,
    Contents(usize),
    Body(usize),
    Valuations,
    Route(usize),
}

// The refusal's number and place.
impl From<Refusal> for Numbered {
    ghost from_gives = { λ refusal numbered. numbered ≡ refusal_as refusal };

    fn from(refusal: Refusal) -> Numbered {
        match refusal {
            Refusal::Size => Numbered {
                number: 2,
                place: 0,
            },
            Refusal::Contents(at) => Numbered {
                number: 3,
                place: at,
            },
            Refusal::Body(at) => Numbered {
                number: 4,
                place: at,
            },
            Refusal::Valuations => Numbered {
                number: 16,
                place: 0,
            },
            Refusal::Route(at) => Numbered {
                number: 5,
                place: at,
            },
        }
    }
}

// The refusal's number and place; 0 and 0 for a file that is fine.
pub fn numbered(checked: Result<(), Refusal>) -> Numbered
    ensures { result ≡ checked_as checked }
{
    match checked {
        Ok(()) => Numbered {
            number: 0,
            place: 0,
        },
        Err(refusal) => Numbered::from(refusal),
    }
}
