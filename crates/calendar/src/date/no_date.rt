// What is told of a number that names no date.
ghost use Rattle.std.specs.Prelude.{Some};
ghost use Rattle.calendar.specs.Calendar.{no_date_text};

use std::error::Error;
use std::fmt;

// Not one error with `NoLength`: each is the error of its own call, with its own words.
/// A number that names no date on which a trading day can start.
#[derive(Clone, Copy, PartialEq, Eq, Debug)]
pub struct NoDate(pub u64);

impl fmt::Display for NoDate {
    ghost output = { λ unmet. Some (no_date_text unmet.0) };

    fn fmt<W: fmt::Write>(&self, f: &mut fmt::Formatter<W>) -> fmt::Result {
        let number = self.0;
        write!(f, "no trading day starts on {number}")
    }
}

impl Error for NoDate {}
