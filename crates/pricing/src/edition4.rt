// Edition 4.0: spill has one price all the year, and makeup is raised by the makeup factor.
ghost use Rattle.std.specs.Prelude.{◌≡◌};
ghost use Rattle.pricing.specs.Makeup.{fourth_makeup};
ghost use Rattle.pricing.specs.Spills.{fourth_price, fourth_spill};

use crate::factor::Factor;
use crate::makeup::Makeup;
use crate::price_edition::PriceEdition;
use crate::spill::Spilled;
use calendar::{Period, TradingDay};
use energy::Micropence;

/// Edition 4.0 of the prices.
#[derive(Clone, Copy, PartialEq, Eq, Debug)]
pub struct Edition4;

impl PriceEdition for Edition4 {
    ghost spill_amount = { λ _. fourth_spill };

    ghost makeup_charge = { λ _. fourth_makeup };

    fn spill_amount(&self, day: TradingDay, spilled: Spilled) -> Micropence {
        spilled.paid_at(spill_price(spilled.is_tolerated(spilled.base)))
    }

    fn makeup_charge(&self, day: TradingDay, period: Period, makeup: Makeup) -> Micropence {
        makeup.factored_charge(Factor::of_period(day, period))
    }
}

/// The price of spill in micropence per kWh.
fn spill_price(within: bool) -> u64
    ensures { result ≡ fourth_price within }
{
    if within { 1_000_000 } else { 800_000 }
}
