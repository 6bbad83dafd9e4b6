// The periods of a day.
ghost use Rattle.std.specs.Prelude.{◌≡◌, ◌≤◌};
ghost use Rattle.std.specs.Option.{option_map};
ghost use Rattle.calendar.specs.Periods.{period_numbered};

use crate::length::DayLength;

/// A half hour of a trading day, numbered from 1 at 06:00; the longest day has 50.
#[derive(Clone, Copy, PartialEq, Eq, Debug)]
pub struct Period {
    number: u8,
    ghost first: { 1 ≤ number },
    ghost last: { number ≤ 50 },
}

impl Period {
    /// The period with this number, where a day of this length has it.
    pub fn of_day(length: DayLength, number: u64) -> Option<Period>
        ensures { option_map (λ p. p.number) result ≡ period_numbered length number }
    {
        if !(1..=length.periods() as u64).contains(&number) {
            return None;
        }
        Some(Period {
            number: number as u8,
        })
    }

    /// The period's number.
    pub fn number(self) -> u8
        ensures { result ≡ self.number }
    {
        self.number
    }
}
