// The questions of a file's header.
ghost use Rattle.std.specs.Prelude.{◌≡◌};
ghost use Rattle.std.specs.Option.{option_map};
ghost use Rattle.nomination.specs.ValuesHeld.{header_said, said, values_said};
ghost use Rattle.intake.specs.Filers.{code_said};
ghost use Rattle.intake.specs.Asked.{day_asked};
ghost use Rattle.intake.specs.Filing.{header_asked, filer_said};
ghost use Rattle.intake.specs.Noting.{filer_from, head_of, Followed, ShortEnough};

use crate::asked_day::AskedDay;
use crate::fault::{BookFault, FileFault, RegisterFault};
use energy::PartyCode;
use nomination::{Header, LineReader, TextFault, Values};

/// The most files that a day takes.
const MOST_FILES: u32 = 31_968;

impl AskedDay<'_> {
    /// The party that files under a header, where register, day and book allow it.
    fn ask_header(&self, header: Header) -> Result<PartyCode, FileFault>
        ensures { code_said result ≡ header_asked (day_asked self.now) (header_said header) }
    {
        if self.register.find(header.filer()).is_none() {
            return Err(RegisterFault::UnknownFiler.into());
        }
        if header.date() != self.terms.date.number() {
            return Err(RegisterFault::OtherDate.into());
        }
        if self.terms.files >= MOST_FILES {
            return Err(BookFault::FilesFull.into());
        }
        Ok(header.filer())
    }

    /// The party that files under a header, by what the first line says.
    fn filer_said(&self, values: Values) -> Result<PartyCode, FileFault>
        ensures { code_said result ≡ filer_said (day_asked self.now) (values_said values) }
    {
        match values {
            Values::Heading(header) => self.ask_header(header),
            Values::Trading(..) | Values::Matching(_) => Err(TextFault::BadLine { line: 1 }.into()),
        }
    }

    /// The party that files under the first line, from what the reader answers there.
    fn filer_of(&self, next: Result<Option<Values>, TextFault>) -> Result<PartyCode, FileFault>
        ensures { code_said result ≡ filer_from (day_asked self.now) (said (option_map values_said) next) }
    {
        self.filer_said(next?.ok_or(TextFault::BadLine { line: 1 })?)
    }

    /// Takes the header of a file.
    pub(crate) fn take_header(&self, reader: &mut LineReader<'_>) -> Result<PartyCode, FileFault>
        requires start { reader.old.at ≡ 0 }
        requires first { reader.old.line ≡ 1 }
        ensures filer { code_said result ≡ head_of (day_asked self.now) reader.old.text.now }
        ensures place { Followed result reader.old.text.now 0 1 reader.new.at reader.new.line }
        ensures short { ShortEnough result reader.old.text.now }
        ensures text { reader.new.text.now ≡ reader.old.text.now }
    {
        self.filer_of(reader.next_values())
    }
}
