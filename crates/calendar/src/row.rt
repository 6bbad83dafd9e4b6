// The rows of the makeup factor table.
ghost use Rattle.std.specs.Prelude.{◌≡◌, ◌≤◌};
ghost use Rattle.calendar.specs.Periods.{row_of};

use crate::length::DayLength;
use crate::period::Period;

// Not `Numbered<48>`: a bound would stand for the word in every message and definition, to save two lines.
/// A row of the makeup factor table, from 1 to 48, by the time of day.
#[derive(Clone, Copy, PartialEq, Eq, Debug)]
pub struct Row {
    number: u8,
    ghost first: { 1 ≤ number },
    ghost last: { number ≤ 48 },
}

impl Row {
    /// The row's number.
    pub fn number(self) -> u8
        ensures { result ≡ self.number }
    {
        self.number
    }
}

/// The row that a period of a day of this length reads.
pub fn table_row(length: DayLength, period: Period) -> Row
    ensures { result.number ≡ row_of length period.number }
{
    let number = period.number();
    let normal = match length {
        DayLength::Short if number >= 39 => number + 2,
        DayLength::Long if number >= 41 => number - 2,
        _ => number,
    };
    Row {
        number: (normal + 11) % 48 + 1,
    }
}
