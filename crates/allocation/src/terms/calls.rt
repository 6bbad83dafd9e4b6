// How the terms of a period are made.
ghost use Rattle.std.specs.Prelude.{◌≡◌};
ghost use Rattle.std.specs.Option.{option_map};
ghost use Rattle.allocation.specs.Terms.{terms_with, terms_in, sound, all_within};

use crate::terms::PeriodTerms;
use energy::Mw;

const MOST_PARTIES: usize = 16;

const LARGEST_NTC: Mw = Mw(9_999);

/// What sixteen contracts of 9,999 MW can give to one party.
const LARGEST_ENTITLEMENT: Mw = Mw(159_984);

impl PeriodTerms {
    /// The terms with these figures, where they are within the limits.
    pub fn new(
        north: usize,
        south: usize,
        northern: [Mw; 16],
        southern: [Mw; 16],
        ns_ntc: Mw,
        sn_ntc: Mw,
        service: bool,
    ) -> Option<PeriodTerms>
        ensures { option_map terms_in result ≡ sound (terms_with north south northern southern ns_ntc sn_ntc service) }
    {
        if north > MOST_PARTIES
            || south > MOST_PARTIES
            || ns_ntc > LARGEST_NTC
            || sn_ntc > LARGEST_NTC
            || !all_within(&northern)
            || !all_within(&southern)
        {
            return None;
        }
        Some(PeriodTerms {
            north,
            south,
            northern,
            southern,
            ns_ntc,
            sn_ntc,
            service,
        })
    }
}

/// Whether each entitlement is within the limit.
fn all_within(entitlements: &[Mw; 16]) -> bool
    ensures { result ≡ all_within entitlements.now }
{
    entitlements
        .iter()
        .all(|&entitlement| entitlement <= LARGEST_ENTITLEMENT)
}
