// Why a rationing rule does not answer.
ghost use Rattle.std.specs.Prelude.{◌≡◌, Some};
ghost use Rattle.rationing.specs.Admission.{refusal_number, refusal_text};

use std::fmt;

/// The refusal of a rationing rule.
#[derive(Clone, Copy, PartialEq, Eq, Debug)]
pub enum RationingRefusal {
    /// The lists differ in length, are too long, or the claims sum to too much.
    ClaimsOutsideLimits = 20,
}

impl RationingRefusal {
    /// The number under which members know the refusal.
    // No trait over all refusals: each kind has its own definition, and the body is one cast.
    pub fn number(self) -> u8
        ensures { result ≡ refusal_number self }
    {
        self as u8
    }
}

impl fmt::Display for RationingRefusal {
    ghost output = { λ refusal. Some (refusal_text refusal) };

    fn fmt<W: fmt::Write>(&self, f: &mut fmt::Formatter<W>) -> fmt::Result {
        let number = self.number();
        write!(f, "refused {number}")
    }
}
