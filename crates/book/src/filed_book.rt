// Filed entries as a kind of row of a book.
ghost use Rattle.book.specs.FiledRows.{filed_fit, filed_key, filed_under, filed_most};
ghost use Rattle.book.specs.Keyed.{filed_keyed};

use crate::entry::Entry;
use crate::filed_row::{FiledKey, FiledRow};
use crate::keyed::Keyed;
use crate::row::Row;

/// What one party filed of its trade or match with another in one period. No entry has a party number
/// above 15 or an amount above 9,999,999 kWh.
pub type FiledEntry = Entry<FiledRow>;

impl Row for FiledRow {
    type Key = FiledKey;

    const MOST: usize = 4_096;

    ghost fit = { filed_fit };

    ghost under = { filed_under };

    ghost MOST = { filed_most };

    // The check is the row's own method, which is asked without the trait too.
    fn is_fit(&self) -> bool {
        self.passes()
    }

    fn is_under(&self, key: &FiledKey) -> bool {
        self.key() == *key
    }
}

impl Keyed for FiledRow {
    ghost key_of = { filed_key };

    ghost keyed = { filed_keyed };

    fn key(&self) -> FiledKey {
        FiledKey {
            filer: self.filer,
            kind: self.kind,
            period: self.period,
            north: self.north,
            south: self.south,
        }
    }
}
