// An amount that does not cover a sum, and one claim's part of it.
ghost use Rattle.std.specs.Prelude.{◌≡◌, ◌*◌, ◌/◌, ◌%◌, ◌<◌};

use energy::Kwh;

/// An amount below the sum of the claims on it.
#[derive(Clone, Copy)]
pub struct Shortfall {
    pub amount: Kwh,
    pub sum: Kwh,
    ghost short: { amount.0 < sum.0 },
}

impl Shortfall {
    /// amount × claim / sum rounded down, and the remainder of that division.
    pub fn divided(self, claim: Kwh) -> (u64, u64)
        ensures whole { result.0 ≡ self.amount.0 * claim.0 / self.sum.0 }
        ensures rest { result.1 ≡ self.amount.0 * claim.0 % self.sum.0 }
    {
        // 128 bits hold the product of any two numbers of 64.
        let product = u128::from(self.amount.0) * u128::from(claim.0);
        let sum = u128::from(self.sum.0);
        ((product / sum) as u64, (product % sum) as u64)
    }
}
