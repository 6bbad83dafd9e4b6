// The register. The struct stands alone: what is said of it elsewhere names it.
ghost use Rattle.std.specs.Prelude.{◌≡◌, true};
ghost use Rattle.register.specs.Parties.{sides_few, codes_apart, entitlements_within};
ghost use Rattle.register.specs.Rolls.{parties_in};

use crate::limits::MOST_PARTIES;
use crate::party::Party;
use arrayvec::ArrayVec;

mod calls;

/// The parties of both sides. A side has at most 16, no code stands twice, and no entitlement is above 9,999 MW.
// No `Vec`, since a register is made and filled with no heap and cannot run out of memory. A field for each side, and
// no array of both: the invariants then name a side, where an index would rest on the order of the variants of `Side`.
#[derive(Drop)]
pub struct Register {
    northern: ArrayVec<Party, MOST_PARTIES>,
    southern: ArrayVec<Party, MOST_PARTIES>,
    ghost few: { sides_few (parties_in northern southern) ≡ true },
    ghost apart: { codes_apart (parties_in northern southern) ≡ true },
    ghost within: { entitlements_within (parties_in northern southern) ≡ true },
}
