// Trading days: their dates, weekdays, periods and seasons, and where they fall in the makeup factor table.
#![tactic(auto)]

mod column;
mod date;
mod day;
mod length;
mod month;
mod period;
mod row;
mod season;
mod theorems;
mod weekday;

pub use column::FactorColumn;
pub use date::{Date, NoDate};
pub use day::TradingDay;
pub use length::{DayLength, NoLength};
pub use period::Period;
pub use row::{Row, table_row};
pub use season::{MakeupSeason, SpillSeason};
pub use theorems::calendar_stands;
pub use weekday::Weekday;
