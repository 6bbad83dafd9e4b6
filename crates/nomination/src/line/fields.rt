// The fields of a line.
ghost use Rattle.std.specs.Prelude.{◌≡◌, length};
ghost use Rattle.std.specs.Iterator.{YieldsFirstBy, item_count};
ghost use Rattle.nomination.specs.FieldsLeft.{fields_left};
ghost use Rattle.nomination.specs.Lines.{fields_of};
ghost use Rattle.nomination.specs.Parts.{part_seen, part_of, parts_from};

use crate::line::TextLine;
use crate::mark::Mark;
use crate::part::Part;
use crate::search::find;

// An iterator of its own, and no `split`: the one search finds the commas too, and each field comes with its place.
/// The fields of a line, one after the other: what is left of it, none once the last was given.
#[derive(Drop)]
pub(super) struct Fields<'a> {
    rest: Option<TextLine<'a>>,
}

impl<'a> Iterator for Fields<'a> {
    type Item = Part<'a>;

    ghost next_gives = { YieldsFirstBy part_seen fields_left };

    ghost remaining = { item_count fields_left };

    fn next(&mut self) -> Option<Part<'a>> {
        let line = self.rest.take()?;
        let Some(comma) = find(line.bytes, Mark::Comma) else {
            return Some(Part {
                bytes: line.bytes,
                at: line.at,
            });
        };
        self.rest = Some(TextLine {
            bytes: &line.bytes[comma + 1..],
            at: line.at + comma + 1,
            ended: line.ended,
            number: line.number,
        });
        Some(Part {
            bytes: &line.bytes[..comma],
            at: line.at,
        })
    }
}

impl<'a> TextLine<'a> {
    /// How many fields it has.
    pub(crate) fn field_count(&self) -> usize
        ensures { result ≡ length (fields_of self.now.bytes.now) }
    {
        self.fields().count()
    }

    /// A field, counted from 0: empty behind the last.
    pub(crate) fn field(&self, index: usize) -> Part<'a>
        ensures { part_seen result ≡ part_of self.now.at (fields_of self.now.bytes.now) index }
    {
        let behind = Part {
            bytes: &[],
            at: self.at + self.bytes.len() + 1,
        };
        self.fields().nth(index).unwrap_or(behind)
    }

    /// Its fields, one after the other.
    pub(super) fn fields(&self) -> Fields<'a>
        ensures { fields_left result ≡ parts_from self.now.at (fields_of self.now.bytes.now) }
    {
        Fields { rest: Some(*self) }
    }
}
