// A line as a record.
ghost use Rattle.std.specs.Prelude.{◌≡◌};
ghost use Rattle.std.specs.Option.{option_map};
ghost use Rattle.nomination.specs.Lines.{fields_of};
ghost use Rattle.nomination.specs.LinesSeen.{line_shown};
ghost use Rattle.nomination.specs.Reading.{record_of};
ghost use Rattle.nomination.specs.Records.{detail_parts, header_in, detail_in, record_in};
ghost use Rattle.nomination.specs.RecordsSeen.{detail_seen, record_seen, line_seen};

use crate::fault::TextFault;
use crate::kind::{is_detail, is_header};
use crate::line::TextLine;
use crate::reading::read_values;
use crate::record::{DetailParts, HeaderParts, Record};
use book::FiledKind;

impl<'a> TextLine<'a> {
    /// Its record, all of its fields well formed.
    pub(crate) fn record(&self) -> Result<Record<'a>, TextFault>
        ensures { line_seen result ≡ record_of self.now.number self.now.at (line_shown self.now) }
    {
        let parts = self.parts()?;
        read_values(parts, self.number)?;
        Ok(parts)
    }

    /// Its record, the fields not looked at yet.
    fn parts(&self) -> Result<Record<'a>, TextFault>
        ensures { line_seen result ≡ record_in self.now.number self.now.at (line_shown self.now) }
    {
        let parts = if !self.ended {
            None
        } else if self.number == 1 {
            self.header()
        } else {
            self.detail()
        };
        parts.ok_or(TextFault::BadLine { line: self.number })
    }

    /// The header that it is, if it is one.
    fn header(&self) -> Option<Record<'a>>
        ensures { option_map record_seen result ≡ header_in self.now.at (fields_of self.now.bytes.now) }
    {
        if self.field_count() != 5 || !is_header(self.field(0).bytes) {
            return None;
        }
        Some(Record::Heading(HeaderParts {
            file_type: self.field(1),
            version: self.field(2),
            filer: self.field(3),
            date: self.field(4),
        }))
    }

    /// The trade or match that it is, if it is one.
    fn detail(&self) -> Option<Record<'a>>
        ensures { option_map record_seen result ≡ detail_in self.now.at (fields_of self.now.bytes.now) }
    {
        let count = self.field_count();
        let first = self.field(0).bytes;
        if count == 7 && is_detail(first, FiledKind::Trade) {
            return Some(Record::Trading(self.detail_parts()?, self.field(6)));
        }
        if count == 6 && is_detail(first, FiledKind::Match) {
            return Some(Record::Matching(self.detail_parts()?));
        }
        None
    }

    /// The parts that a trade and a match share, if it has so many fields.
    // One pass gives them all: to search from the line's start for each was most of the work of reading.
    fn detail_parts(&self) -> Option<DetailParts<'a>>
        ensures { option_map detail_seen result ≡ detail_parts self.now.at (fields_of self.now.bytes.now) }
    {
        let mut fields = self.fields();
        let _kind = fields.next()?;
        let period = fields.next()?;
        let north = fields.next()?;
        let south = fields.next()?;
        let ns = fields.next()?;
        let sn = fields.next()?;
        Some(DetailParts {
            period,
            north,
            south,
            ns,
            sn,
        })
    }
}
