// What is told of a test on a zone.
ghost use Rattle.std.specs.Prelude.{◌≡◌};
ghost use Rattle.zones.specs.Settled.{told_of, told_settled, told_yes};

// A test on a zone: no valuation of the zone satisfies it, or all do; or it splits the zone, whose parts have one inequality more, or
// would have a 25th. A verdict of another number stops a part with that number; no test is told it.
#[derive(Clone, Copy, PartialEq, Eq)]
pub enum Told {
    No,
    Yes,
    Split,
    Full,
    Other(usize),
}

// The verdict of a number: 0 is no, 1 yes, 3 a split, 8 a 25th inequality.
impl From<usize> for Told {
    ghost from_gives = { λ number told. told ≡ told_of number };

    fn from(number: usize) -> Told {
        match number {
            0 => Told::No,
            1 => Told::Yes,
            3 => Told::Split,
            8 => Told::Full,
            _ => Told::Other(number),
        }
    }
}

impl Told {
    // Whether it is no or yes.
    pub fn is_settled(self) -> bool
        ensures { result ≡ told_settled self }
    {
        match self {
            Told::No => true,
            Told::Yes => true,
            Told::Split => false,
            Told::Full => false,
            Told::Other(_) => false,
        }
    }

    // Whether it is yes.
    pub fn is_yes(self) -> bool
        ensures { result ≡ told_yes self }
    {
        self == Told::Yes
    }
}
