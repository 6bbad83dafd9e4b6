// How much of a book is in use.
ghost use Rattle.std.specs.Prelude.{◌≡◌};

use crate::held::Book;

impl<'a, R> Book<'a, R> {
    /// How many rows are in use.
    pub fn used(&self) -> usize
        ensures { result ≡ self.now.used }
    {
        self.used
    }
}
