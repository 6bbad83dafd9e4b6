// What a date can be asked.
ghost use Rattle.std.specs.Prelude.{◌≡◌, Some};
ghost use Rattle.std.specs.Option.{ok_or};
ghost use Rattle.std.specs.Result.{result_map_both};
ghost use Rattle.calendar.specs.Calendar.{date_named, numbered, following};
ghost use Rattle.calendar.specs.Dates.{calendar_day, no_date};
ghost use Rattle.calendar.specs.Seasons.{place_of};
ghost use Rattle.calendar.specs.Weekdays.{day_after, days_since, weekday_of};

use crate::date::{Date, NoDate};
use crate::month::{days_before, days_in_month};
use crate::weekday::{Weekday, after_tuesday};

const FIRST_NUMBER: u64 = 2003_04_01;

const LAST_NUMBER: u64 = 2099_12_31;

/// Months are counted from April 2003: its year times 12, and its month.
const APRIL_2003: u32 = 12 * 2003 + 4;

impl TryFrom<u64> for Date {
    type Error = NoDate;

    ghost try_from_gives = { λ number outcome. result_map_both calendar_day (λ e. e) outcome ≡ ok_or (date_named number) (no_date number) };

    /// The date that a number YYYYMMDD names, where it is one.
    fn try_from(number: u64) -> Result<Date, NoDate> {
        if !(FIRST_NUMBER..=LAST_NUMBER).contains(&number) {
            return Err(NoDate(number));
        }
        let year = (number / 10_000) as u16;
        let month = (number / 100 % 100) as u8;
        let day = (number % 100) as u8;
        if !(1..=12).contains(&month) || !(1..=days_in_month(year, month)).contains(&day) {
            return Err(NoDate(number));
        }
        Ok(Date { year, month, day })
    }
}

impl Date {
    /// The date's number YYYYMMDD, which names this date again.
    pub fn number(self) -> u32
        ensures value { result ≡ numbered (calendar_day self) }
        ensures back { date_named result ≡ Some (calendar_day self) }
    {
        10_000 * self.year as u32 + 100 * self.month as u32 + self.day as u32
    }

    /// The date's day of the week; the day after has the next one.
    pub fn weekday(self) -> Weekday
        ensures value { result ≡ weekday_of (calendar_day self) }
        ensures next { weekday_of (following (calendar_day self)) ≡ day_after result }
    {
        after_tuesday(self.days_since_april())
    }

    /// The days from 1 April 2003, a Tuesday, to the date.
    fn days_since_april(self) -> u32
        ensures { result ≡ days_since (calendar_day self) }
    {
        let months = 12 * self.year as u32 + self.month as u32 - APRIL_2003;
        days_before(months) + self.day as u32 - 1
    }

    /// The date's place in its year: the number MMDD.
    pub(crate) fn place_in_year(self) -> u16
        ensures { result ≡ place_of (calendar_day self) }
    {
        100 * self.month as u16 + self.day as u16
    }
}
