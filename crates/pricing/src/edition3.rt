// Edition 3.0: spill is priced by season, and makeup at the rate.
ghost use Rattle.std.specs.Prelude.{◌≡◌};
ghost use Rattle.pricing.specs.Makeup.{third_makeup};
ghost use Rattle.pricing.specs.Spills.{third_price, third_spill};

use crate::makeup::Makeup;
use crate::price_edition::PriceEdition;
use crate::spill::Spilled;
use calendar::{Period, SpillSeason, TradingDay};
use energy::Micropence;

/// Edition 3.0 of the prices.
#[derive(Clone, Copy, PartialEq, Eq, Debug)]
pub struct Edition3;

impl PriceEdition for Edition3 {
    ghost spill_amount = { λ _. third_spill };

    ghost makeup_charge = { λ _. third_makeup };

    fn spill_amount(&self, day: TradingDay, spilled: Spilled) -> Micropence {
        let within = spilled.is_tolerated(spilled.nomination);
        spilled.paid_at(spill_price(day.spill_season(), within))
    }

    fn makeup_charge(&self, day: TradingDay, period: Period, makeup: Makeup) -> Micropence {
        makeup.plain_charge()
    }
}

/// The price of spill in micropence per kWh.
fn spill_price(season: SpillSeason, within: bool) -> u64
    ensures { result ≡ third_price season within }
{
    match (season, within) {
        (SpillSeason::Summer, true) => 1_500_000,
        (SpillSeason::Summer, false) => 800_000,
        (SpillSeason::Winter, true) => 2_000_000,
        (SpillSeason::Winter, false) => 1_200_000,
    }
}
