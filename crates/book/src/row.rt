// What a plain row of a book is.
ghost use Rattle.std.specs.Prelude.{◌≡◌, ℕ, Bool};
ghost use Rattle.std.specs.Option.{option_map};
ghost use Rattle.book.specs.Books.{checked};

use crate::entry::Entry;

/// A plain row of a book. It stands for an entry where it passes its kind's check.
pub trait Row: Copy {
    type Key: Copy;

    /// How many rows a book of this kind uses at most.
    const MOST: usize;

    /// Whether a row stands for an entry.
    ghost fit: { Self → Bool };

    /// Whether a row is under a key.
    ghost under: { Self → Self.Key → Bool };

    /// How many rows a book of this kind uses at most.
    ghost MOST: { ℕ };

    /// Whether the row stands for an entry.
    fn is_fit(&self) -> bool
        ensures { result ≡ fit self.now };

    /// Whether the row is under this key.
    fn is_under(&self, key: &Self::Key) -> bool
        ensures { result ≡ under self.now key.now };

    /// The entry that the row stands for, if it stands for one.
    fn entry(&self) -> Option<Entry<Self>>
        ensures { option_map (λ e. e.row) result ≡ checked fit self.now }
    {
        if self.is_fit() {
            Some(Entry { row: *self })
        } else {
            None
        }
    }
}
