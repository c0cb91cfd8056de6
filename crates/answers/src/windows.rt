// What Windows answers.
ghost use Rattle.std.specs.Prelude.{◌≡◌};
ghost use Rattle.answers.specs.declared.windows.Refused.TheVariants.{File};
ghost use Rattle.answers.specs.Numbers.{cut_refused_as, windows_as};

use crate::Numbered;
use crate::file::Refusal;

// How many zones (paper: pieces), and how many valuations (paper: settings) are kept and cut.
#[derive(Clone, Copy, PartialEq, Eq)]
pub struct Counts {
    pub pieces: usize,
    pub kept: usize,
    pub cut: usize,
}

// Why no zones are listed: the table is too small (1); the file is refused (2 to 5, 16); or at a visit a guard would list a 33rd zone
// (7), or a split would give its parts a 25th inequality (8). 9 was a number that leaves its range; no sheet meets it, and it is not used
// again.
#[derive(Clone, Copy, PartialEq, Eq)]
pub enum Refused {
    Small,
    File(Refusal),
    Zones(usize),
    Inequalities(usize),
}

impl From<Refusal> for Refused {
    ghost from_gives = { λ refusal refused. refused ≡ File refusal };

    fn from(why: Refusal) -> Refused {
        Refused::File(why)
    }
}

// The refusal's number and place.
impl From<Refused> for Numbered {
    ghost from_gives = { λ refused numbered. numbered ≡ cut_refused_as refused };

    fn from(refused: Refused) -> Numbered {
        match refused {
            Refused::Small => Numbered {
                number: 1,
                place: 0,
            },
            Refused::File(refusal) => Numbered::from(refusal),
            Refused::Zones(visit) => Numbered {
                number: 7,
                place: visit,
            },
            Refused::Inequalities(visit) => Numbered {
                number: 8,
                place: visit,
            },
        }
    }
}

// The answer's number, 0 where the zones are listed, else the refusal; and the refusal's place, 0 where the zones are listed.
pub fn numbered(answer: Result<Counts, Refused>) -> Numbered
    ensures { result ≡ windows_as answer }
{
    match answer {
        Ok(_) => Numbered {
            number: 0,
            place: 0,
        },
        Err(refused) => Numbered::from(refused),
    }
}
