// The days of the week.
ghost use Rattle.std.specs.Prelude.{◌≡◌};
ghost use Rattle.calendar.specs.Columns.{weekend};
ghost use Rattle.calendar.specs.Weekdays.{onward};

/// A day of the week.
#[derive(Clone, Copy, PartialEq, Eq, Debug)]
pub enum Weekday {
    Monday,
    Tuesday,
    Wednesday,
    Thursday,
    Friday,
    Saturday,
    Sunday,
}

impl Weekday {
    /// Whether it is Saturday or Sunday.
    pub(crate) fn is_weekend(self) -> bool
        ensures { result ≡ weekend self }
    {
        matches!(self, Weekday::Saturday | Weekday::Sunday)
    }
}

/// The week from the Tuesday on which the calendar starts.
const FROM_TUESDAY: [Weekday; 7] = [
    Weekday::Tuesday,
    Weekday::Wednesday,
    Weekday::Thursday,
    Weekday::Friday,
    Weekday::Saturday,
    Weekday::Sunday,
    Weekday::Monday,
];

/// The weekday so many days after a Tuesday.
pub(crate) fn after_tuesday(days: u32) -> Weekday
    ensures { result ≡ onward Weekday.Tuesday days }
{
    FROM_TUESDAY[days as usize % 7]
}
