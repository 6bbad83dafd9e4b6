// A shortage, and what the editions need to price it.
ghost use Rattle.std.specs.Prelude.{◌≡◌, ◌*◌, ◌≤◌};
ghost use Rattle.pricing.specs.Limits.{most_rate};
ghost use Rattle.pricing.specs.Makeup.{plain_charge, factored_charge};

use crate::factor::Factor;
use crate::limited::{PricedEnergy, PricedRate, Shortage};
use energy::Micropence;

/// A shortage, with the base and the makeup rate that it is charged by.
#[derive(Clone, Copy, PartialEq, Eq, Debug)]
pub struct Makeup {
    pub base: PricedEnergy,
    pub rate: PricedRate,
    pub shortage: Shortage,
}

impl Makeup {
    /// Every kWh at the plain rate.
    pub(crate) fn plain_charge(self) -> Micropence
        ensures { result ≡ plain_charge self.rate.amount self.shortage.amount }
    {
        Micropence(self.at_rate(1000 * self.shortage.amount.0))
    }

    /// The plain rate up to 15 parts in 100 of the base, and the rate times the factor beyond.
    pub(crate) fn factored_charge(self, factor: Factor) -> Micropence
        ensures { result ≡ factored_charge factor.tenths self.base.amount self.rate.amount self.shortage.amount }
    {
        let plain = 15 * self.base.amount.0;
        let short = 100 * self.shortage.amount.0;
        if short <= plain {
            return self.plain_charge();
        }
        let raised = at_factor(short - plain, factor);
        Micropence(self.at_rate(150 * self.base.amount.0) + self.at_rate(raised))
    }

    /// So many times the rate.
    fn at_rate(self, count: u64) -> u64
        requires { count ≤ 1000000000000 }
        ensures value { result ≡ count * self.rate.amount.0 }
        ensures bound { result ≤ most_rate * count }
    {
        count * self.rate.amount.0
    }
}

/// So many times the tenths of the factor.
fn at_factor(count: u64, factor: Factor) -> u64
    requires { count ≤ 40000000000 }
    ensures value { result ≡ count * factor.tenths }
    ensures bound { result ≤ 15 * count }
{
    count * factor.tenths as u64
}
