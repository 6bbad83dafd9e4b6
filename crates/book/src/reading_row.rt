// Plain rows of readings.
ghost use Rattle.std.specs.Prelude.{◌≡◌};
ghost use Rattle.book.specs.ReadingRows.{reading_fit};

use crate::limits::{LAST_PARTY, MOST_KWH};
use energy::Kwh;

/// A plain row: what a Northern supplier nominated, generated and took in one period.
#[derive(Clone, Copy)]
pub struct ReadingRow {
    pub party: u8,
    pub period: u8,
    pub local: Kwh,
    pub plg: Kwh,
    pub demand: Option<Kwh>,
}

/// A reading is under its party and period.
#[derive(Clone, Copy, PartialEq, Eq, Debug)]
pub struct ReadingKey {
    pub party: u8,
    pub period: u8,
}

impl ReadingRow {
    /// Whether the row passes the check of a reading.
    pub fn passes(&self) -> bool
        ensures { result ≡ reading_fit self.now }
    {
        self.party <= LAST_PARTY
            && self.local <= MOST_KWH
            && self.plg <= MOST_KWH
            && self.demand.is_none_or(|given| given <= MOST_KWH)
    }
}
