// The detail lines of a file, one after the other.
ghost use Rattle.std.specs.Prelude.{◌≡◌, ◌<◌, ◌≤◌, length, take, drop};
ghost use Rattle.std.specs.Option.{option_map};
ghost use Rattle.std.specs.Result.{result_map_both};
ghost use Rattle.book.specs.InUse.{in_use};
ghost use Rattle.nomination.specs.Lines.{lines_of};
ghost use Rattle.nomination.specs.Reading.{line_at};
ghost use Rattle.nomination.specs.ValuesHeld.{said, values_said};
ghost use Rattle.intake.specs.Asked.{day_asked, filer_asked};
ghost use Rattle.intake.specs.Filing.{row_into, line_into, take_lines};
ghost use Rattle.intake.specs.Intake.{space_of, whole, used_after};
ghost use Rattle.intake.specs.Noting.{noted, grown, row_from, Followed};

use crate::admit::admit;
use crate::fault::FileFault;
use crate::filing::Filing;
use crate::taken::Taken;
use book::{Book, FiledEntry, FiledRow};
use nomination::{LineReader, TextFault, Values};

impl Filing<'_> {
    /// The row that a line files, from what the reader answers there.
    fn line_row(
        &self,
        line: usize,
        next: Result<Option<Values>, TextFault>,
    ) -> Result<FiledEntry, FileFault>
        ensures { result_map_both (λ e. e.row) (λ fault. fault) result ≡ row_from (day_asked self.now.day) (filer_asked self.now) line (said (option_map values_said) next) }
    {
        self.row_said(line, next?.ok_or(TextFault::BadLine { line })?)
    }

    /// Takes the next line into the book.
    fn add_line(
        &self,
        filed: &mut Book<'_, FiledRow>,
        reader: &mut LineReader<'_>,
    ) -> Result<(), FileFault>
        requires more { reader.old.at < length reader.old.text.now }
        requires short { length reader.old.text.now ≤ 65536 }
        ensures rows { (filed.new.rows.now, result) ≡ noted filed.old.rows.now filed.old.used (line_into (day_asked self.now.day) (filer_asked self.now) (space_of filed.old.rows.now) reader.old.line (in_use filed.old) (line_at reader.old.text.now reader.old.at)) }
        ensures used { filed.new.used ≡ grown filed.old.used result }
        ensures lender { filed.new.rows.ghost_name ≡ filed.old.rows.ghost_name }
        ensures place { Followed result reader.old.text.now reader.old.at reader.old.line reader.new.at reader.new.line }
        ensures text { reader.new.text.now ≡ reader.old.text.now }
    {
        let line = reader.line();
        admit_row(filed, line, self.line_row(line, reader.next_values()))
    }

    /// Takes all lines that are left into the book, and counts them.
    pub(crate) fn take_lines(
        &self,
        filed: &mut Book<'_, FiledRow>,
        from: LineReader<'_>,
    ) -> Result<Taken, FileFault>
        requires short { length from.text.now ≤ 65536 }
        ensures answer { (take (used_after filed.old.used result) filed.new.rows.now, result) ≡ whole (in_use filed.old) (take_lines (day_asked self.now.day) (filer_asked self.now) (space_of filed.old.rows.now) from.entry.line (in_use filed.old) (lines_of (drop from.entry.at from.entry.text.now))) }
        ensures lender { filed.new.rows.ghost_name ≡ filed.old.rows.ghost_name }
    {
        let mut reader = from;
        let before = filed.used();
        while !reader.is_done() {
            self.add_line(filed, &mut reader)?;
        }
        let used = filed.used();
        Ok(Taken {
            used,
            lines: used - before,
        })
    }
}

/// Adds the row of a line behind the rows in use, where the line has one.
// Apart from the call above, so that its proof goes through the reader or the book and not through both.
fn admit_row(
    filed: &mut Book<'_, FiledRow>,
    line: usize,
    row: Result<FiledEntry, FileFault>,
) -> Result<(), FileFault>
    ensures rows { (filed.new.rows.now, result) ≡ noted filed.old.rows.now filed.old.used (row_into (space_of filed.old.rows.now) line (in_use filed.old) (result_map_both (λ e. e.row) (λ fault. fault) row)) }
    ensures used { filed.new.used ≡ grown filed.old.used result }
    ensures lender { filed.new.rows.ghost_name ≡ filed.old.rows.ghost_name }
{
    Ok(admit(filed, line, row?)?)
}
