// The columns of the makeup factor table.
ghost use Rattle.std.specs.Prelude.{◌≡◌};
ghost use Rattle.calendar.specs.Columns.{working, summer_column, winter_column, column_of};
ghost use Rattle.calendar.specs.Seasons.{at_winter_peak, at_year_end};
ghost use Rattle.calendar.specs.TradingDays.{start_day};

use crate::day::TradingDay;
use crate::season::MakeupSeason;

/// The kind of day that a column of the makeup factor table is for, in the order of the columns.
#[derive(Clone, Copy, PartialEq, Eq, Debug)]
pub enum FactorColumn {
    MaySeptemberWorkday,
    AprilOctoberWorkday,
    /// Weekends and public holidays in summer.
    OtherSummerDay,
    WinterPeakWorkday,
    OtherWinterWorkday,
    /// Weekends and public holidays in winter, and every day from 24 December to 1 January.
    OtherWinterDay,
}

impl TradingDay {
    /// Its column in the makeup factor table.
    pub fn factor_column(self) -> FactorColumn
        ensures { result ≡ column_of (start_day self) self.holiday }
    {
        match self.makeup_season() {
            MakeupSeason::Summer => self.summer_column(),
            MakeupSeason::Winter => self.winter_column(),
        }
    }

    /// Its column where it is a day of summer.
    fn summer_column(self) -> FactorColumn
        ensures { result ≡ summer_column (start_day self) (working (start_day self) self.holiday) }
    {
        if !self.is_workday() {
            return FactorColumn::OtherSummerDay;
        }
        match self.date().place_in_year() {
            5_01..=9_30 => FactorColumn::MaySeptemberWorkday,
            _ => FactorColumn::AprilOctoberWorkday,
        }
    }

    /// Its column where it is a day of winter.
    fn winter_column(self) -> FactorColumn
        ensures { result ≡ winter_column (start_day self) (working (start_day self) self.holiday) }
    {
        if !self.is_workday() || self.is_year_end() {
            return FactorColumn::OtherWinterDay;
        }
        if self.is_winter_peak() {
            FactorColumn::WinterPeakWorkday
        } else {
            FactorColumn::OtherWinterWorkday
        }
    }

    /// Whether it is Monday to Friday and no public holiday.
    fn is_workday(self) -> bool
        ensures { result ≡ working (start_day self) self.holiday }
    {
        !self.is_holiday() && !self.date().weekday().is_weekend()
    }

    /// Whether it is from 22 November to 21 February.
    fn is_winter_peak(self) -> bool
        ensures { result ≡ at_winter_peak (start_day self) }
    {
        matches!(self.date().place_in_year(), 11_22..=12_31 | 1_01..=2_21)
    }

    /// Whether it is from 24 December to 1 January.
    fn is_year_end(self) -> bool
        ensures { result ≡ at_year_end (start_day self) }
    {
        matches!(self.date().place_in_year(), 12_24..=12_31 | 1_01)
    }
}
