// The months of the calendar.
ghost use Rattle.std.specs.Prelude.{◌≡◌, ◌*◌, ◌<◌, ◌≤◌};
ghost use Rattle.calendar.specs.Calendar.{leap, month_days};
ghost use Rattle.calendar.specs.Weekdays.{days_before, counted_month_days};

/// Whether the year has a 29 February.
fn is_leap(year: u16) -> bool
    ensures { result ≡ leap year }
{
    (year % 4 == 0 && year % 100 != 0) || year % 400 == 0
}

/// The days of a month.
pub(crate) fn days_in_month(year: u16, month: u8) -> u8
    ensures { result ≡ month_days year month }
{
    match month {
        2 if is_leap(year) => 29,
        2 => 28,
        4 | 6 | 9 | 11 => 30,
        _ => 31,
    }
}

/// The days of so many months from April 2003 on.
pub(crate) fn days_before(months: u32) -> u32
    requires { months ≤ 1200 }
    ensures counted { result ≡ days_before months }
    ensures bound { result ≤ 31 * months }
{
    (0..months).map(counted_month_days).sum()
}

/// The days of the month that comes so many months after April 2003.
fn counted_month_days(months: u32) -> u32
    requires { months < 1200 }
    ensures value { result ≡ counted_month_days months }
    ensures bound { result ≤ 31 }
{
    let since_january = months + 3;
    let year = 2003 + since_january / 12;
    let month = since_january % 12 + 1;
    days_in_month(year as u16, month as u8) as u32
}
