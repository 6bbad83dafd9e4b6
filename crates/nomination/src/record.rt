// The records of a nomination file, and as parts of its text.
use crate::part::Part;

/// A header, a trade with its flag, or a match, by what is held of a header, of a trade or match, and of a flag.
#[derive(Clone, Copy, PartialEq, Eq, Debug)]
pub enum RecordOf<H, D, F> {
    Heading(H),
    Trading(D, F),
    Matching(D),
}

/// A record as parts of the text.
pub type Record<'a> = RecordOf<HeaderParts<'a>, DetailParts<'a>, Part<'a>>;

/// The fields of a header after the first.
#[derive(Clone, Copy, PartialEq, Eq, Debug)]
pub struct HeaderParts<'a> {
    pub file_type: Part<'a>,
    pub version: Part<'a>,
    pub filer: Part<'a>,
    pub date: Part<'a>,
}

/// The fields that a trade and a match share.
#[derive(Clone, Copy, PartialEq, Eq, Debug)]
pub struct DetailParts<'a> {
    pub period: Part<'a>,
    pub north: Part<'a>,
    pub south: Part<'a>,
    pub ns: Part<'a>,
    pub sn: Part<'a>,
}
