// Energies with a limit.
ghost use Rattle.std.specs.Prelude.{◌≡◌};

use crate::amount::Amount;
use crate::limited::Limited;
use energy::Kwh;

impl Amount for Kwh {
    ghost count = { λ energy. energy.0 };

    fn count(self) -> u64 {
        self.0
    }
}

// By `entry`: where a const parameter alone is open, an `ensures` refuses `self.amount`.
impl<const MOST: u64> Limited<Kwh, MOST> {
    /// The energy.
    pub fn energy(self) -> Kwh
        ensures { result ≡ self.entry.amount }
    {
        self.amount
    }
}
