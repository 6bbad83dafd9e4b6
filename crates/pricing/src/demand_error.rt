// Demand Error: by how much a party's figures of one period are out.
ghost use Rattle.std.specs.Prelude.{◌≡◌, pos, neg_ℤ, ◌≤ℤ◌};
ghost use Rattle.pricing.specs.Limits.{most_energy, most_shortage};
ghost use Rattle.pricing.specs.DemandErrors.{error_of, spill_of, shortage_of};

use crate::limited::{PricedEnergy, Shortage};
use energy::Kwh;

/// Demand Error in kWh: above zero a spill, below zero a shortage.
#[derive(Clone, Copy, PartialEq, Eq, Debug)]
pub struct DemandError {
    kwh: i64,
    ghost least: { neg_ℤ (pos most_shortage) ≤ℤ kwh },
    ghost most: { kwh ≤ℤ pos most_energy },
}

impl DemandError {
    /// The base less the actual demand and less the export.
    pub fn new(base: PricedEnergy, actual: PricedEnergy, export: PricedEnergy) -> DemandError
        ensures { result.kwh ≡ error_of base.amount actual.amount export.amount }
    {
        let kwh = base.amount.0 as i64 - actual.amount.0 as i64 - export.amount.0 as i64;
        DemandError { kwh }
    }

    /// The error in kWh, with its sign.
    pub fn signed_kwh(self) -> i64
        ensures { result ≡ self.kwh }
    {
        self.kwh
    }

    /// The spill: the error where it is above zero, and else 0.
    pub fn spill(self) -> PricedEnergy
        ensures { result.amount ≡ spill_of self.kwh }
    {
        PricedEnergy {
            amount: Kwh(self.kwh.max(0).unsigned_abs()),
        }
    }

    /// The shortage: minus the error where it is below zero, and else 0.
    pub fn shortage(self) -> Shortage
        ensures { result.amount ≡ shortage_of self.kwh }
    {
        Shortage {
            amount: Kwh(self.kwh.min(0).unsigned_abs()),
        }
    }
}
