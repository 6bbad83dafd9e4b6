// What a trade and a match say. The struct stands alone: what is said of it elsewhere names it.
ghost use Rattle.std.specs.Prelude.{◌≤◌};

use energy::{Kwh, PartyCode};

mod calls;

/// A period, a northern and a southern party, and the energy in both directions: at most 9,999,999 kWh each.
#[derive(Clone, Copy, PartialEq, Eq, Debug)]
pub struct Detail {
    pub(crate) period: u8,
    pub(crate) north: PartyCode,
    pub(crate) south: PartyCode,
    pub(crate) ns: Kwh,
    pub(crate) sn: Kwh,
    ghost first: { 1 ≤ period },
    ghost last: { period ≤ 99 },
    ghost ns_small: { ns.0 ≤ 9999999 },
    ghost sn_small: { sn.0 ≤ 9999999 },
}
