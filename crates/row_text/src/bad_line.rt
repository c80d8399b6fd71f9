ghost use Rattle.std.specs.Prelude.{◌≡◌};
ghost use Rattle.row_text.specs.FaultKinds.{kind_of_fault};

use crate::RowFault;

// The kinds of the faults that only a line of a text can have.
const NOT_AFTER: u8 = 8;

const NOT_ENDED: u8 = 9;

/// A line of a text that is at fault.
#[derive(Clone, Copy, Debug, PartialEq, Eq)]
pub struct BadLine {
    /// Its number in the text, from 1.
    pub line: u64,
    /// What is wrong with it.
    pub fault: LineFault,
}

/// What is wrong with a line of a text. A line has the first of these that holds (this project's own).
#[derive(Clone, Copy, Debug, PartialEq, Eq)]
pub enum LineFault {
    /// It is the line of no row.
    NoRowLine(RowFault),
    /// It is the line of a row, whose stamp does not exceed that of the line before.
    NotAfter,
    /// It is the last one, and has no line feed.
    NotEnded,
}

impl LineFault {
    /// The kind of the fault, from 1 to 9, as it is printed.
    pub fn kind(self) -> u8
        ensures { result ≡ kind_of_fault self }
    {
        match self {
            LineFault::NoRowLine(fault) => fault as u8,
            LineFault::NotAfter => NOT_AFTER,
            LineFault::NotEnded => NOT_ENDED,
        }
    }
}
