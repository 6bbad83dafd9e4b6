// Reading a text line by line.
ghost use Rattle.std.specs.Prelude.{◌≡◌, ◌≤◌, length};
ghost use Rattle.nomination.specs.LinesSeen.{line_shown};
ghost use Rattle.nomination.specs.Reading.{line_at, next_of};
ghost use Rattle.nomination.specs.RecordsSeen.{answer_seen};

use crate::fault::TextFault;
use crate::line::TextLine;
use crate::mark::Mark;
use crate::reader::LineReader;
use crate::record::Record;
use crate::search::find;

/// The most bytes that a text has.
const LONGEST_TEXT: usize = 65_536;

impl<'a> LineReader<'a> {
    /// A reader at the first line of a text.
    pub fn over(text: &'a [u8]) -> LineReader<'a>
        ensures text { result.text.now ≡ text.now }
        ensures at { result.at ≡ 0 }
        ensures line { result.line ≡ 1 }
    {
        LineReader {
            text,
            at: 0,
            line: 1,
        }
    }

    /// The record of the next line, none at the end of the file, or the text's fault.
    pub fn next(&mut self) -> Result<Option<Record<'a>>, TextFault>
        ensures answer { (answer_seen result, self.new.at, self.new.line) ≡ next_of self.old.text.now self.old.at self.old.line }
        ensures text { self.new.text.now ≡ self.old.text.now }
    {
        if self.text.len() > LONGEST_TEXT {
            return Err(TextFault::TooLong);
        }
        if self.is_done() && self.line > 1 {
            return Ok(None);
        }
        let line = self.next_line();
        let record = line.record()?;
        self.at += line.bytes.len() + 1;
        self.line += 1;
        Ok(Some(record))
    }

    /// The line that starts at its place, in a text that is not too long.
    fn next_line(&self) -> TextLine<'a>
        requires { length self.now.text.now ≤ 65536 }
        ensures line { line_shown result ≡ line_at self.now.text.now self.now.at }
        ensures at { result.at ≡ self.now.at }
        ensures number { result.number ≡ self.now.line }
    {
        let rest = &self.text[self.at..];
        let end = find(rest, Mark::LineEnd);
        TextLine {
            bytes: &rest[..end.unwrap_or(rest.len())],
            ended: end.is_some(),
            at: self.at,
            number: self.line,
        }
    }
}
