// Readings as a kind of row of a book.
ghost use Rattle.book.specs.ReadingRows.{reading_fit, reading_key, reading_under, reading_most};
ghost use Rattle.book.specs.Keyed.{reading_keyed};

use crate::entry::Entry;
use crate::keyed::Keyed;
use crate::reading_row::{ReadingKey, ReadingRow};
use crate::row::Row;

/// A supplier's local nomination, PLG output and actual demand in one period. No reading has a party
/// number above 15 or an amount above 9,999,999 kWh.
pub type Reading = Entry<ReadingRow>;

impl Row for ReadingRow {
    type Key = ReadingKey;

    const MOST: usize = 800;

    ghost fit = { reading_fit };

    ghost under = { reading_under };

    ghost MOST = { reading_most };

    // The check is the row's own method, which is asked without the trait too.
    fn is_fit(&self) -> bool {
        self.passes()
    }

    fn is_under(&self, key: &ReadingKey) -> bool {
        self.key() == *key
    }
}

impl Keyed for ReadingRow {
    ghost key_of = { reading_key };

    ghost keyed = { reading_keyed };

    fn key(&self) -> ReadingKey {
        ReadingKey {
            party: self.party,
            period: self.period,
        }
    }
}
