// What a text says, line by line.
ghost use Rattle.std.specs.Prelude.{◌≡◌, length, nat_le};
ghost use Rattle.std.specs.Option.{option_map};
ghost use Rattle.nomination.specs.Reading.{answer_read, said_next};
ghost use Rattle.nomination.specs.RecordsSeen.{answer_seen};
ghost use Rattle.nomination.specs.ValuesHeld.{values_said, said};

use crate::fault::TextFault;
use crate::reader::LineReader;
use crate::reading::read_values;
use crate::record::Record;
use crate::values::Values;

impl LineReader<'_> {
    /// The number of the next line.
    pub fn line(&self) -> usize
        ensures { result ≡ self.now.line }
    {
        self.line
    }

    /// Whether nothing of the text is left.
    pub fn is_done(&self) -> bool
        ensures { result ≡ nat_le (length self.now.text.now) self.now.at }
    {
        self.at >= self.text.len()
    }

    /// What the next line says, none at the end of the file, or the text's fault.
    pub fn next_values(&mut self) -> Result<Option<Values>, TextFault>
        ensures answer { (said (option_map values_said) result, self.new.at, self.new.line) ≡ said_next self.old.text.now self.old.at self.old.line }
        ensures text { self.new.text.now ≡ self.old.text.now }
    {
        let line = self.line;
        read_next(self.next(), line)
    }
}

/// What a reader's answer at a line says.
fn read_next(
    next: Result<Option<Record<'_>>, TextFault>,
    line: usize,
) -> Result<Option<Values>, TextFault>
    ensures { said (option_map values_said) result ≡ answer_read line (answer_seen next.entry) }
{
    next?.map(|record| read_values(record, line)).transpose()
}
