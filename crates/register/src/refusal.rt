// Why a register or a period table does not take what it is told.
ghost use Rattle.std.specs.Prelude.{◌≡◌};
ghost use Rattle.register.specs.declared.refusal.AssignmentRefusal.TheVariants as assignment;
ghost use Rattle.register.specs.Refusals.{registration_number, assignment_number, over_limit_number};

/// Why a party is not registered.
#[derive(Clone, Copy, PartialEq, Eq, Debug)]
pub enum RegistrationRefusal {
    /// The text is not a code.
    MalformedCode = 4,
    /// A party of either side has the code.
    CodeTaken = 5,
    /// The side has 16 parties.
    SideFull = 6,
}

/// Why an entitlement is not assigned.
#[derive(Clone, Copy, PartialEq, Eq, Debug)]
pub enum AssignmentRefusal {
    /// No party has the code.
    NotRegistered = 7,
    /// The entitlement is above 9,999 MW.
    OverLimit = 10,
}

/// A figure of a period is above its limit.
#[derive(Clone, Copy, PartialEq, Eq, Debug)]
pub struct OverLimit;

impl RegistrationRefusal {
    /// The number under which members know the refusal.
    // No trait over all refusals: each kind has its own definition, and the body is one cast.
    pub fn number(self) -> u8
        ensures { result ≡ registration_number self }
    {
        self as u8
    }
}

impl AssignmentRefusal {
    /// The number under which members know the refusal.
    // By a cast of its own, as above.
    pub fn number(self) -> u8
        ensures { result ≡ assignment_number self }
    {
        self as u8
    }
}

impl OverLimit {
    /// The number under which members know the refusal.
    pub fn number(self) -> u8
        ensures { result ≡ over_limit_number self }
    {
        AssignmentRefusal::from(self).number()
    }
}

impl From<OverLimit> for AssignmentRefusal {
    ghost from_gives = { λ _ refusal. refusal ≡ assignment.OverLimit };

    fn from(_over: OverLimit) -> AssignmentRefusal {
        AssignmentRefusal::OverLimit
    }
}
