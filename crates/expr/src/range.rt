// Ranges of parameters (paper: allowances).
use crate::number::PARAMETERS;

// A parameter's range, both ends included.
#[derive(Clone, Copy)]
pub struct Range {
    pub low: i16,
    pub high: i16,
}

// The ranges of the parameters; one that a sheet lacks has 0 to 0.
#[derive(Clone, Copy)]
pub struct Ranges {
    pub list: [Range; PARAMETERS],
}

impl Range {
    // 0 to 0.
    pub const ZERO: Range = Range { low: 0, high: 0 };
}

impl Ranges {
    // 0 to 0 for each.
    pub const ZERO: Ranges = Ranges {
        list: [Range::ZERO; PARAMETERS],
    };
}
