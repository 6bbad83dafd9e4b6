// What an entry is asked.
ghost use Rattle.std.specs.Prelude.{◌≡◌};

use crate::entry::Entry;
use crate::row::Row;

impl<R: Row> Entry<R> {
    /// The row that the entry stands on.
    pub fn row(&self) -> R
        ensures { result ≡ self.now.row }
    {
        self.row
    }
}
