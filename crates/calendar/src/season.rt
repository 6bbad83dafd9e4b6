// The two seasons, each a type of its own, so that neither is taken for the other.
ghost use Rattle.std.specs.Prelude.{◌≡◌};
ghost use Rattle.calendar.specs.Seasons.{spill_season_of, makeup_season_of};
ghost use Rattle.calendar.specs.TradingDays.{start_day};

use crate::day::TradingDay;

/// The season that a spill is priced by: summer ends on 30 September.
#[derive(Clone, Copy, PartialEq, Eq, Debug)]
pub enum SpillSeason {
    Summer,
    Winter,
}

/// The season that makeup is priced by: summer ends on 31 October.
#[derive(Clone, Copy, PartialEq, Eq, Debug)]
pub enum MakeupSeason {
    Summer,
    Winter,
}

impl TradingDay {
    /// Its season for spill.
    pub fn spill_season(self) -> SpillSeason
        ensures { result ≡ spill_season_of (start_day self) }
    {
        match self.date().place_in_year() {
            4_01..=9_30 => SpillSeason::Summer,
            _ => SpillSeason::Winter,
        }
    }

    /// Its season for makeup.
    pub fn makeup_season(self) -> MakeupSeason
        ensures { result ≡ makeup_season_of (start_day self) }
    {
        match self.date().place_in_year() {
            4_01..=10_31 => MakeupSeason::Summer,
            _ => MakeupSeason::Winter,
        }
    }
}
