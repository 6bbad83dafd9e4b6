// A spill, and what the editions need to price it.
ghost use Rattle.std.specs.Prelude.{◌≡◌, ◌≤◌};
ghost use Rattle.pricing.specs.Spills.{tolerated, paid_at};

use crate::limited::PricedEnergy;
use energy::{Kwh, Micropence};

/// The largest spill that is within tolerance.
const TOLERATED: Kwh = Kwh(10_000);

/// A spill, with the base and the local nomination, one of which an edition measures it against.
#[derive(Clone, Copy, PartialEq, Eq, Debug)]
pub struct Spilled {
    pub base: PricedEnergy,
    pub nomination: PricedEnergy,
    pub spill: PricedEnergy,
}

impl Spilled {
    /// Whether the spill is within tolerance, measured against an energy.
    pub(crate) fn is_tolerated(self, measure: PricedEnergy) -> bool
        ensures { result ≡ tolerated self.spill.amount measure.amount }
    {
        self.spill.amount <= TOLERATED && 10 * self.spill.amount.0 <= measure.amount.0
    }

    /// The whole spill at one price, in micropence per kWh.
    pub(crate) fn paid_at(self, price: u64) -> Micropence
        requires { price ≤ 2000000 }
        ensures { result ≡ paid_at price self.spill.amount }
    {
        Micropence(price * self.spill.amount.0)
    }
}
