// What a record says, from its parts.
ghost use Rattle.std.specs.Prelude.{◌≡◌};
ghost use Rattle.nomination.specs.RecordsSeen.{record_seen};
ghost use Rattle.nomination.specs.Values.{record_read};
ghost use Rattle.nomination.specs.ValuesHeld.{values_said, said};

use crate::detail::Detail;
use crate::fault::TextFault;
use crate::flag::read_flag;
use crate::header::Header;
use crate::record::Record;
use crate::values::Values;

/// What a record on a line says, or its first bad field.
pub fn read_values(parts: Record<'_>, line: usize) -> Result<Values, TextFault>
    ensures { said values_said result ≡ record_read line (record_seen parts.entry) }
{
    match parts {
        Record::Heading(header) => Ok(Values::Heading(Header::read(header, line)?)),
        Record::Trading(detail, flag) => {
            let detail = Detail::read(detail, line)?;
            let flag = read_flag(flag.bytes).ok_or(TextFault::BadField { line, field: 7 })?;
            Ok(Values::Trading(detail, flag))
        }
        Record::Matching(detail) => Ok(Values::Matching(Detail::read(detail, line)?)),
    }
}
