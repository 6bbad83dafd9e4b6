// Rates with a limit.
ghost use Rattle.std.specs.Prelude.{◌≡◌};

use crate::amount::Amount;
use crate::limited::Limited;
use energy::Rate;

impl Amount for Rate {
    ghost count = { λ rate. rate.0 };

    fn count(self) -> u64 {
        self.0
    }
}

// By `entry`: where a const parameter alone is open, an `ensures` refuses `self.amount`.
impl<const MOST: u64> Limited<Rate, MOST> {
    /// The rate.
    pub fn rate(self) -> Rate
        ensures { result ≡ self.entry.amount }
    {
        self.amount
    }
}
