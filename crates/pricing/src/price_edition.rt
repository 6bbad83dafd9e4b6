// What an edition of the prices is.
ghost use Rattle.std.specs.Prelude.{◌≡◌};
ghost use Rattle.calendar.specs.declared.day.TradingDay.{TradingDay};
ghost use Rattle.calendar.specs.declared.period.Period.{Period};
ghost use Rattle.energy.specs.declared.unit.Kwh.{Kwh};
ghost use Rattle.energy.specs.declared.unit.Micropence.{Micropence};
ghost use Rattle.energy.specs.declared.unit.Rate.{Rate};

use crate::makeup::Makeup;
use crate::spill::Spilled;
use calendar::{Period, TradingDay};
use energy::{Kwh, Micropence, Rate};

/// An edition of the prices of spill and makeup.
// Each edition repeats the parameters of the two calls: they are the one interface of all editions.
pub trait PriceEdition {
    /// What a spill is paid, by the day, the base, the local nomination and the spill.
    ghost spill_amount: { Self → TradingDay → Kwh → Kwh → Kwh → Micropence };

    /// What a shortage is charged, by the day, the period, the base, the rate and the shortage.
    ghost makeup_charge: { Self → TradingDay → Period → Kwh → Rate → Kwh → Micropence };

    /// The amount paid for a spill.
    fn spill_amount(&self, day: TradingDay, spilled: Spilled) -> Micropence
        ensures { result ≡ spill_amount self.now day spilled.base.amount spilled.nomination.amount spilled.spill.amount };

    /// The charge for a shortage.
    fn makeup_charge(&self, day: TradingDay, period: Period, makeup: Makeup) -> Micropence
        ensures { result ≡ makeup_charge self.now day period makeup.base.amount makeup.rate.amount makeup.shortage.amount };
}
