// Which lists of claims a rule answers.
ghost use Rattle.std.specs.Prelude.{◌≡◌};
ghost use Rattle.rationing.specs.Admission.{admission};

use crate::refusal::RationingRefusal;
use energy::{Kwh, total};

/// As many claims as a side has parties.
const MOST_CLAIMS: usize = 16;

/// Sixteen senders to sixteen receivers at 9,999,999 kWh each.
const LARGEST_SUM: Kwh = Kwh(2_559_999_744);

/// The sum of claims that a rule answers with that many awards, or the refusal.
pub fn admitted_sum(claims: &[Kwh], places: usize) -> Result<Kwh, RationingRefusal>
    ensures { result ≡ admission claims.now places }
{
    if claims.len() != places || claims.len() > MOST_CLAIMS {
        return Err(RationingRefusal::ClaimsOutsideLimits);
    }
    total(claims)
        .filter(|sum| *sum <= LARGEST_SUM)
        .ok_or(RationingRefusal::ClaimsOutsideLimits)
}
