// What is asked of the rows in use.
ghost use Rattle.std.specs.Prelude.{◌≡◌, count_by};
ghost use Rattle.std.specs.Option.{option_map};
ghost use Rattle.book.specs.Books.{place_under, entry_at};

use crate::entry::Entry;
use crate::row::Row;

/// The place of the first entry under a key.
pub fn find_row<R: Row>(rows: &[R], key: &R::Key) -> Option<usize>
    ensures { result ≡ place_under R.fit R.under key.now rows.now }
{
    rows.iter()
        .position(|row| row.is_fit() && row.is_under(key))
}

/// How many of the rows stand for entries.
pub fn count_entries<R: Row>(rows: &[R]) -> usize
    ensures { result ≡ count_by R.fit rows.now }
{
    rows.iter().filter(|row| row.is_fit()).count()
}

/// The entry at a place, if the row there stands for one.
pub fn entry_at<R: Row>(rows: &[R], at: usize) -> Option<Entry<R>>
    ensures { option_map (λ e. e.row) result ≡ entry_at R.fit at rows.now }
{
    rows.get(at)?.entry()
}
