// The register rule: the odd kWh go to the first claims in register order.
ghost use Rattle.std.specs.Prelude.{◌≡◌};
ghost use Rattle.rationing.specs.Register.{handed_out, spare, odd};
ghost use Rattle.rationing.specs.Handing.{register_quota};

use crate::dividing::Dividing;
use crate::uncovered::Uncovered;
use energy::Kwh;

/// Rounds every share down, then gives one kWh each to the first claims whose division left a
/// remainder, until the amount is used.
#[derive(Clone, Copy, PartialEq, Eq, Debug)]
pub struct RegisterRule;

impl Dividing for RegisterRule {
    ghost divides = { λ _. handed_out };

    ghost quota = { λ rule amount claims. register_quota amount claims };

    fn divide(&self, uncovered: Uncovered, out: &mut [Kwh]) {
        let Uncovered { shortfall, claims } = uncovered;
        let mut left = spare_kwh(uncovered);
        // By index, since no invariant can name the awards that a zip over iter_mut writes.
        for (i, claim) in claims.iter().enumerate() {
            let (whole, rest) = shortfall.divided(*claim);
            let one = odd_kwh(left, rest);
            out[i] = Kwh(whole + one);
            left -= one;
        }
    }
}

/// What is left of the amount when every share is rounded down.
fn spare_kwh(uncovered: Uncovered) -> u64
    ensures { result ≡ spare uncovered.entry.shortfall.amount.0 uncovered.entry.claims.now }
{
    let Uncovered { shortfall, claims } = uncovered;
    let down: u64 = claims.iter().map(|claim| shortfall.divided(*claim).0).sum();
    shortfall.amount.0 - down
}

/// One kWh for a remainder, while any is left.
fn odd_kwh(left: u64, rest: u64) -> u64
    ensures { result ≡ odd left rest }
{
    u64::from(left > 0 && rest > 0)
}
