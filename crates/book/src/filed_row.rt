// Plain rows of filed entries.
ghost use Rattle.std.specs.Prelude.{◌≡◌};
ghost use Rattle.book.specs.FiledRows.{filed_fit};

use crate::limits::{LAST_PARTY, MOST_KWH};
use energy::{Kwh, Side};

/// The kind of energy that a trade is flagged as.
#[derive(Clone, Copy, PartialEq, Eq, Debug)]
pub enum Flag {
    Brown,
    Chp,
    Renewable,
}

/// What is filed.
#[derive(Clone, Copy, PartialEq, Eq, Debug)]
pub enum FiledKind {
    Trade,
    Match,
}

/// A plain row; its flag says nothing where it is a match.
// Kind and flag stand apart, and the key's fields among the others, since callers write and read each by name.
#[derive(Clone, Copy)]
pub struct FiledRow {
    pub filer: Side,
    pub kind: FiledKind,
    pub period: u8,
    pub north: u8,
    pub south: u8,
    pub ns: Kwh,
    pub sn: Kwh,
    pub flag: Flag,
}

/// All of a row but its amounts and flag.
#[derive(Clone, Copy, PartialEq, Eq, Debug)]
pub struct FiledKey {
    pub filer: Side,
    pub kind: FiledKind,
    pub period: u8,
    pub north: u8,
    pub south: u8,
}

impl FiledRow {
    /// Whether the row passes the check of an entry.
    pub fn passes(&self) -> bool
        ensures { result ≡ filed_fit self.now }
    {
        self.north <= LAST_PARTY
            && self.south <= LAST_PARTY
            && self.ns <= MOST_KWH
            && self.sn <= MOST_KWH
    }
}
