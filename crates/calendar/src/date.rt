// The dates on which a trading day can start. The struct stands alone: what is said of it elsewhere names it.
ghost use Rattle.std.specs.Prelude.{◌+◌, ◌*◌, ◌≤◌};
ghost use Rattle.calendar.specs.Calendar.{month_days};

mod calls;
mod no_date;

pub use no_date::NoDate;

/// A date from 1 April 2003 to 31 December 2099.
#[derive(Clone, Copy, PartialEq, Eq, Debug)]
pub struct Date {
    year: u16,
    month: u8,
    day: u8,
    ghost since: { 12 * 2003 + 4 ≤ 12 * year + month },
    ghost until: { year ≤ 2099 },
    ghost january: { 1 ≤ month },
    ghost december: { month ≤ 12 },
    ghost first: { 1 ≤ day },
    ghost last: { day ≤ month_days year month },
}
