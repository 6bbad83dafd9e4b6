// How many periods a day has.
ghost use Rattle.std.specs.Prelude.{◌≡◌, Some};
ghost use Rattle.std.specs.Option.{ok_or};
ghost use Rattle.calendar.specs.Periods.{length_with, periods_of, no_length, no_length_text};

use std::error::Error;
use std::fmt;

/// The length of a trading day, which is its number of periods. Any date can have any length.
#[derive(Clone, Copy, PartialEq, Eq, Debug)]
pub enum DayLength {
    Short = 46,
    Normal = 48,
    Long = 50,
}

// Not one error with `NoDate`: each is the error of its own call, with its own words.
/// A number of periods that no day has.
#[derive(Clone, Copy, PartialEq, Eq, Debug)]
pub struct NoLength(pub u64);

impl DayLength {
    /// The number of periods of such a day.
    pub fn periods(self) -> u8
        ensures { result ≡ periods_of self }
    {
        self as u8
    }
}

impl TryFrom<u64> for DayLength {
    type Error = NoLength;

    ghost try_from_gives = { λ count outcome. outcome ≡ ok_or (length_with count) (no_length count) };

    /// The length of a day with so many periods.
    fn try_from(count: u64) -> Result<DayLength, NoLength> {
        // By match: a search of the cases by their numbers is longer.
        match count {
            46 => Ok(DayLength::Short),
            48 => Ok(DayLength::Normal),
            50 => Ok(DayLength::Long),
            _ => Err(NoLength(count)),
        }
    }
}

impl fmt::Display for NoLength {
    ghost output = { λ unmet. Some (no_length_text unmet.0) };

    fn fmt<W: fmt::Write>(&self, f: &mut fmt::Formatter<W>) -> fmt::Result {
        let count = self.0;
        write!(f, "no day has {count} periods")
    }
}

impl Error for NoLength {}
