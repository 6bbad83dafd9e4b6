// Amounts of the sizes that a day can bring. A price is a product of up to three numbers, and could pass 64 bits at
// some energies and rates. A value of these types cannot exist beyond its limit, so every price is exact for every
// value, and no call has to refuse. No day reaches the limits.
ghost use Rattle.std.specs.Prelude.{◌≡◌, ◌≤◌, ⊤};
ghost use Rattle.std.specs.Option.{option_map};
ghost use Rattle.pricing.specs.Limits.{up_to};

use crate::amount::Amount;
use energy::{Kwh, Rate};
use std::alloc::AllocError;

const MOST_ENERGY: u64 = 200_000_000;

const MOST_SHORTAGE: u64 = 400_000_000;

const MOST_RATE: u64 = 100_000;

/// A base, a nomination, an actual demand, an export or a spill: at most 200,000,000 kWh.
pub type PricedEnergy = Limited<Kwh, MOST_ENERGY>;

/// A shortage: at most 400,000,000 kWh, as much as an actual demand and an export together.
pub type Shortage = Limited<Kwh, MOST_SHORTAGE>;

/// A makeup rate: at most 100,000 millipence per kWh.
pub type PricedRate = Limited<Rate, MOST_RATE>;

/// An amount of at most `MOST` of its unit.
#[derive(Copy, PartialEq, Eq, Debug)]
pub struct Limited<A: Amount, const MOST: u64> {
    pub(crate) amount: A,
    ghost within: { A.count amount ≤ MOST },
}

// `Clone` cannot be derived for a struct with a ghost field and a type parameter.
impl<A: Amount, const MOST: u64> Clone for Limited<A, MOST> {
    ghost is_clone = { λ old new. new ≡ old };

    ghost is_infallible = { λ _. ⊤ };

    fn clone(&self) -> Result<Limited<A, MOST>, AllocError> {
        Ok(*self)
    }
}

impl<A: Amount, const MOST: u64> Limited<A, MOST> {
    /// This amount, where it is at most `MOST` of its unit.
    pub fn new(amount: A) -> Option<Limited<A, MOST>>
        ensures { option_map (λ limited. limited.amount) result ≡ up_to A.count MOST amount }
    {
        if amount.count() <= MOST {
            Some(Limited { amount })
        } else {
            None
        }
    }
}
