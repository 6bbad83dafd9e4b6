// What is proved of the prices as a whole.
ghost use Rattle.std.specs.Prelude.{◌≡◌};
ghost use Rattle.std.specs.Option.{option_map};
ghost use Rattle.pricing.specs.Limits.{most_energy, most_shortage, most_rate, up_to};
ghost use Rattle.pricing.specs.Theorems.{LimitsKept, FactorRange, EitherWay, WorkedSpills, WorkedCharges, WorkedOctober};

use crate::limited::{PricedEnergy, PricedRate, Shortage};
use energy::{Kwh, Rate};

/// The theorems of the prices stand: a proof and no work, so that the crate fails without them.
pub fn prices_stand() -> u8
    ensures limits_kept { LimitsKept }
    ensures factor_range { FactorRange }
    ensures either_way { EitherWay }
    ensures worked_spills { WorkedSpills }
    ensures worked_charges { WorkedCharges }
    ensures worked_october { WorkedOctober }
{
    0
}

/// An energy, a shortage and a rate, each where it is within the limit of its own type: 200,000,000 kWh,
/// 400,000,000 kWh and 100,000 millipence per kWh.
// `Limited::new` says this of any `MOST`, and here each of the three types has the limit of its definition.
pub fn within_limits(
    energy: Kwh,
    shortage: Kwh,
    rate: Rate,
) -> (Option<PricedEnergy>, Option<Shortage>, Option<PricedRate>)
    ensures energy { option_map (λ limited. limited.amount) result.0 ≡ up_to (λ e. e.0) most_energy energy }
    ensures shortage { option_map (λ limited. limited.amount) result.1 ≡ up_to (λ e. e.0) most_shortage shortage }
    ensures rate { option_map (λ limited. limited.amount) result.2 ≡ up_to (λ r. r.0) most_rate rate }
{
    (
        PricedEnergy::new(energy),
        Shortage::new(shortage),
        PricedRate::new(rate),
    )
}
