// Headers from their fields.
ghost use Rattle.std.specs.Prelude.{◌≡◌};
ghost use Rattle.std.specs.Option.{option_map};
ghost use Rattle.energy.specs.PartyCodes.{code_text};
ghost use Rattle.nomination.specs.RecordsSeen.{header_seen};
ghost use Rattle.nomination.specs.Values.{is_type, header_read, first_header};
ghost use Rattle.nomination.specs.ValuesHeld.{header_said, said};

use crate::fault::TextFault;
use crate::header::Header;
use crate::numbers::{read_date, read_version};
use crate::record::HeaderParts;
use energy::PartyCode;

/// The largest number of eight digits.
const LAST_DATE: u32 = 99_999_999;

impl Header {
    /// What the parts of a header on a line say, or the first bad field.
    pub(crate) fn read(parts: HeaderParts<'_>, line: usize) -> Result<Header, TextFault>
        ensures { said header_said result ≡ header_read line (header_seen parts.entry) }
    {
        let bad = |field| TextFault::BadField { line, field };
        if !is_file_type(parts.file_type.bytes) {
            return Err(bad(2));
        }
        Ok(Header {
            version: read_version(parts.version.bytes).ok_or(bad(3))?,
            filer: PartyCode::read(parts.filer.bytes).ok_or(bad(4))?,
            date: read_date(parts.date.bytes).ok_or(bad(5))?,
        })
    }

    /// The header of the first version of a file, where the date has eight digits.
    pub fn first(filer: PartyCode, date: u32) -> Option<Header>
        ensures { option_map header_said result ≡ first_header (code_text filer) date }
    {
        if date > LAST_DATE {
            return None;
        }
        Some(Header {
            version: 1,
            filer,
            date,
        })
    }

    /// The file's version.
    pub fn version(self) -> u16
        ensures { result ≡ self.version }
    {
        self.version
    }

    /// The party that files it.
    pub fn filer(self) -> PartyCode
        ensures { result ≡ self.filer }
    {
        self.filer
    }

    /// The eight digits of its date, as a number.
    pub fn date(self) -> u32
        ensures { result ≡ self.date }
    {
        self.date
    }
}

/// Whether a field is the file type.
fn is_file_type(text: &[u8]) -> bool
    ensures { result ≡ is_type text.now }
{
    text == b"IANS".as_slice()
}
