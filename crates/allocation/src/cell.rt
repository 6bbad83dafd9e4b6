// What two parties filed of each other in one period.
ghost use Rattle.std.specs.Prelude.{◌≡◌};
ghost use Rattle.allocation.specs.Cells.{put};

use book::{FiledKind, FiledRow};
use energy::{Kwh, Side};

/// The amounts of one filing.
// Nothing else of a row is told, and a square of whole rows is nearly twice as large.
#[derive(Clone, Copy)]
pub struct Amounts {
    pub ns: Kwh,
    pub sn: Kwh,
}

/// The filings of a Northern and a Southern party: a trade and a match by each.
#[derive(Clone, Copy, Default)]
pub struct Cell {
    pub north_trade: Option<Amounts>,
    pub south_trade: Option<Amounts>,
    pub north_match: Option<Amounts>,
    pub south_match: Option<Amounts>,
}

impl Cell {
    /// Files a row's amounts in the row's place.
    pub fn file(&mut self, row: &FiledRow)
        ensures { self.new ≡ put row.now self.old }
    {
        let amounts = Some(Amounts {
            ns: row.ns,
            sn: row.sn,
        });
        match (row.kind, row.filer) {
            (FiledKind::Trade, Side::Northern) => self.north_trade = amounts,
            (FiledKind::Trade, Side::Southern) => self.south_trade = amounts,
            (FiledKind::Match, Side::Northern) => self.north_match = amounts,
            (FiledKind::Match, Side::Southern) => self.south_match = amounts,
        }
    }
}
