// A party as the register holds it.
ghost use Rattle.std.specs.Prelude.{◌≡◌};
ghost use Rattle.energy.specs.PartyCodes.{code_text};
ghost use Rattle.register.specs.Parties.{new_party};
ghost use Rattle.register.specs.Rolls.{party_view, has_code};

use energy::{Mw, PartyCode};

/// A party's code and its entitlement for the day.
#[derive(Clone, Copy)]
pub(crate) struct Party {
    pub(crate) code: PartyCode,
    pub(crate) entitlement: Mw,
}

impl Party {
    /// A party that was given no entitlement yet.
    pub(crate) fn new(code: PartyCode) -> Party
        ensures { party_view result ≡ new_party (code_text code) }
    {
        Party {
            code,
            entitlement: Mw(0),
        }
    }

    /// Whether this is the party's code.
    pub(crate) fn has_code(self, code: PartyCode) -> bool
        ensures { result ≡ has_code (code_text code) self }
    {
        self.code == code
    }
}

impl Default for Party {
    /// The party that stands in each place that is not in use.
    fn default() -> Party {
        Party::new(PartyCode::read(b"0000").unwrap())
    }
}
