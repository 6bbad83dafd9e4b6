// What a code can be asked.
ghost use Rattle.std.specs.Prelude.{◌≡◌};
ghost use Rattle.std.specs.List.{list_all};
ghost use Rattle.std.specs.Option.{option_map};
ghost use Rattle.energy.specs.Codes.{code_char, code_read, same_code, first_four};
ghost use Rattle.energy.specs.PartyCodes.{code_text};

use crate::party_code::PartyCode;

impl PartyCode {
    // No TryFrom: there is one way to fail, and `PartyCode::read(b"AAAA")?` is shorter than `try_from` of a slice.
    /// The code that these bytes are, where they are one.
    pub fn read(text: &[u8]) -> Option<PartyCode>
        ensures { option_map code_text result ≡ code_read text.now }
    {
        let chars: [u8; 4] = text.try_into().ok()?;
        if are_code_chars(&chars) {
            Some(PartyCode { chars })
        } else {
            None
        }
    }

    /// Its four characters, as bytes.
    pub fn bytes(self) -> [u8; 4]
        ensures { first_four result ≡ code_text self }
    {
        self.chars
    }

    /// Whether it is the same code as another: `==`, in the words of the definition.
    pub fn is(self, other: PartyCode) -> bool
        ensures { result ≡ same_code (code_text self) (code_text other) }
    {
        self == other
    }
}

/// Whether these bytes may all stand in a code.
fn are_code_chars(chars: &[u8]) -> bool
    ensures { result ≡ list_all code_char chars.now }
{
    chars.iter().all(|c| is_code_char(*c))
}

/// Whether a byte may stand in a code.
fn is_code_char(byte: u8) -> bool
    ensures { result ≡ code_char byte }
{
    byte.is_ascii_uppercase() || byte.is_ascii_digit()
}
