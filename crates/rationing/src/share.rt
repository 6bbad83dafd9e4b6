// A claim's exact share, before it is rounded to whole kWh.
ghost use Rattle.std.specs.Prelude.{◌*◌, Some};
ghost use Rattle.std.specs.Int.{IsGcd};
ghost use Rattle.rationing.specs.Share.{Exactly, quotient, over, share_text};

use crate::shortfall::Shortfall;
use energy::Kwh;
use std::fmt;

/// An exact number of kWh: a whole part, and a proper fraction in lowest terms.
#[derive(Clone, Copy, PartialEq, Eq, Debug)]
pub struct ExactShare {
    whole: Kwh,
    numerator: u64,
    denominator: u64,
}

/// A claim's share of an amount, exactly: the claim where the amount covers the sum of the claims,
/// otherwise amount × claim / sum.
pub fn exact_share(amount: Kwh, claim: Kwh, sum: Kwh) -> ExactShare
    ensures { Exactly (quotient amount claim sum) result }
{
    if sum <= amount {
        whole_share(claim)
    } else {
        partial_share(Shortfall { amount, sum }, claim)
    }
}

fn whole_share(claim: Kwh) -> ExactShare
    ensures { Exactly (over claim.0 1) result }
{
    ExactShare {
        whole: claim,
        numerator: 0,
        denominator: 1,
    }
}

fn partial_share(shortfall: Shortfall, claim: Kwh) -> ExactShare
    ensures { Exactly (over (shortfall.amount.0 * claim.0) shortfall.sum.0) result }
{
    let (whole, rest) = shortfall.divided(claim);
    let sum = shortfall.sum.0;
    let common = common_divisor(rest, sum);
    ExactShare {
        whole: Kwh(whole),
        numerator: rest / common,
        denominator: sum / common,
    }
}

impl fmt::Display for ExactShare {
    ghost output = { λ share. Some (share_text share) };

    fn fmt<W: fmt::Write>(&self, f: &mut fmt::Formatter<W>) -> fmt::Result {
        let ExactShare {
            whole: Kwh(whole),
            numerator,
            denominator,
        } = *self;
        if numerator == 0 {
            write!(f, "{whole}")
        } else if whole == 0 {
            write!(f, "{numerator}/{denominator}")
        } else {
            write!(f, "{whole} {numerator}/{denominator}")
        }
    }
}

/// The greatest common divisor, by Euclid's algorithm.
fn common_divisor(mut a: u64, mut b: u64) -> u64
    ensures { IsGcd a b result }
{
    while b > 0 {
        (a, b) = (b, a % b);
    }
    a
}
