// A trading day: its date, its length and whether it is a public holiday.
ghost use Rattle.std.specs.Prelude.{◌≡◌};
ghost use Rattle.calendar.specs.TradingDays.{day_with};

use crate::date::Date;
use crate::length::DayLength;

/// A trading day. It goes by the date on which it starts, after midnight too.
#[derive(Clone, Copy, PartialEq, Eq, Debug)]
pub struct TradingDay {
    date: Date,
    length: DayLength,
    holiday: bool,
}

impl TradingDay {
    /// The day that starts on this date.
    pub fn new(date: Date, length: DayLength, holiday: bool) -> TradingDay
        ensures { result ≡ day_with date length holiday }
    {
        TradingDay {
            date,
            length,
            holiday,
        }
    }

    /// The date on which it starts.
    pub fn date(self) -> Date
        ensures { result ≡ self.date }
    {
        self.date
    }

    /// How many periods it has.
    pub fn length(self) -> DayLength
        ensures { result ≡ self.length }
    {
        self.length
    }

    /// Whether it is a public holiday.
    pub fn is_holiday(self) -> bool
        ensures { result ≡ self.holiday }
    {
        self.holiday
    }
}
