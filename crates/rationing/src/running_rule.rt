// The running rule: the amount is divided along the running sum of the claims.
ghost use Rattle.rationing.specs.Running.{divided_along};
ghost use Rattle.rationing.specs.Stepping.{running_quota};

use crate::dividing::Dividing;
use crate::uncovered::Uncovered;
use energy::Kwh;

/// Gives each claim the part of the amount up to and with it, rounded down, less the part up to it.
#[derive(Clone, Copy, PartialEq, Eq, Debug)]
pub struct RunningRule;

impl Dividing for RunningRule {
    ghost divides = { λ _. divided_along };

    ghost quota = { λ rule amount claims. running_quota amount claims };

    fn divide(&self, uncovered: Uncovered, out: &mut [Kwh]) {
        let Uncovered { shortfall, claims } = uncovered;
        let mut claimed = 0;
        let mut before = 0;
        // By index, since no invariant can name the awards that a zip over iter_mut writes.
        for (i, claim) in claims.iter().enumerate() {
            claimed += claim.0;
            let (part, _) = shortfall.divided(Kwh(claimed));
            out[i] = Kwh(part - before);
            before = part;
        }
    }
}
