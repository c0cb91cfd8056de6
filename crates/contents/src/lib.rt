// The contents of a sheet file (paper 01, "The sheet file").
//
// Every function is total, and its contract is an equation with a definition of specs/Contents.
#![tactic(auto)]

pub mod entries;

use cursor::Cursor;

// The contents: where reading them ended, the file's version, and where bodies 1, 2 and 3 end. Body
// 1 starts at byte 22 and body 4 ends with the file.
#[derive(Clone, Copy)]
pub struct Contents {
    pub cursor: Cursor,
    pub version: u8,
    pub first: u32,
    pub second: u32,
    pub third: u32,
}
