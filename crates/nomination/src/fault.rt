// What can be wrong with a text.
ghost use Rattle.std.specs.Prelude.{◌≡◌};
ghost use Rattle.nomination.specs.Faults.{text_report};

/// Why a text is no nomination file; lines and fields are counted from 1.
#[derive(Clone, Copy, PartialEq, Eq, Debug)]
pub enum TextFault {
    /// The text is longer than 65,536 bytes.
    TooLong,
    /// The line is not ended, is not of a right kind for its place or has another number of fields.
    BadLine { line: usize },
    /// The field is not well formed, and is the first such on its line.
    BadField { line: usize, field: u8 },
}

/// What is told of a fault: its number, line and field, 0 where it has none: members read these numbers as they are printed.
#[derive(Clone, Copy, PartialEq, Eq, Debug)]
pub struct FaultReport {
    pub number: u8,
    pub line: usize,
    pub field: u8,
}

impl TextFault {
    /// The fault's number, line and field.
    pub fn report(self) -> FaultReport
        ensures { result ≡ text_report self }
    {
        let (number, line, field) = match self {
            TextFault::TooLong => (11, 0, 0),
            TextFault::BadLine { line } => (12, line, 0),
            TextFault::BadField { line, field } => (13, line, field),
        };
        FaultReport {
            number,
            line,
            field,
        }
    }
}
