// Why a party's entries are not written.
ghost use Rattle.std.specs.Prelude.{◌≡◌};
ghost use Rattle.intake.specs.WriteRefusals.{write_number};

/// Why a file is not written.
#[derive(Clone, Copy, PartialEq, Eq, Debug)]
pub enum WriteRefusal {
    /// The text would pass 65,536 bytes, or the buffer.
    NoRoom = 21,
}

impl WriteRefusal {
    /// The refusal's number.
    // No trait over all refusals: each kind has its own definition, and the body is one cast.
    pub fn number(self) -> u8
        ensures { result ≡ write_number self }
    {
        self as u8
    }
}
