// What a book can be asked.
ghost use Rattle.std.specs.Prelude.{◌≡◌, min, length, count_by};
ghost use Rattle.std.specs.Option.{option_map};
ghost use Rattle.energy.specs.Totals.{within64, sum_of};
ghost use Rattle.book.specs.Books.{place_under, space_left, entry_at, added, changed};
ghost use Rattle.book.specs.Faults.{no_space, not_there};
ghost use Rattle.book.specs.InUse.{in_use};

use crate::entry::Entry;
use crate::fault::{BookFull, NotInUse};
use crate::held::Book;
use crate::row::Row;
use crate::scan::{count_entries, entry_at, find_row};
use energy::{EnergyFigure, Kwh, total};

impl<'a, R: Row> Book<'a, R> {
    /// The book over lent rows of which so many are in use, or all where there are fewer.
    pub fn over(rows: &'a mut [R], used: usize) -> Book<'a, R>
        ensures rows { result.rows.now ≡ rows.old }
        ensures used { result.used ≡ min used (length rows.old) }
        ensures lender { result.rows.ghost_name ≡ rows.entry.ghost_name }
    {
        let most = rows.len();
        Book {
            rows,
            used: used.min(most),
        }
    }

    /// The rows in use.
    fn in_use(&self) -> &[R]
        ensures { result.now ≡ in_use self.now }
    {
        &self.rows[..self.used]
    }

    /// How many entries there are.
    pub fn count(&self) -> usize
        ensures { result ≡ count_by R.fit (in_use self.now) }
    {
        count_entries(self.in_use())
    }

    /// How many entries more the book takes.
    pub fn space_left(&self) -> usize
        ensures { result ≡ space_left R.MOST self.now.rows.now self.now.used }
    {
        self.rows.len().min(R::MOST).saturating_sub(self.used)
    }

    /// The place of the first entry under a key.
    pub fn find(&self, key: R::Key) -> Option<usize>
        ensures { result ≡ place_under R.fit R.under key (in_use self.now) }
    {
        find_row(self.in_use(), &key)
    }

    /// The entry at a place, if a row in use there stands for one.
    pub fn entry(&self, at: usize) -> Option<Entry<R>>
        ensures { option_map (λ e. e.row) result ≡ entry_at R.fit at (in_use self.now) }
    {
        entry_at(self.in_use(), at)
    }

    /// Adds an entry behind the rows in use.
    pub fn add(&mut self, entry: Entry<R>) -> Result<(), BookFull>
        ensures answer { (self.new.rows.now, self.new.used, result) ≡ added R.MOST no_space self.old.rows.now self.old.used entry.row }
        ensures lender { self.new.rows.ghost_name ≡ self.old.rows.ghost_name }
    {
        if self.space_left() == 0 {
            return Err(BookFull);
        }
        self.rows[self.used] = entry.row();
        self.used += 1;
        Ok(())
    }

    /// Puts an entry in the place of a row in use.
    pub fn change(&mut self, at: usize, entry: Entry<R>) -> Result<(), NotInUse>
        ensures answer { (self.new.rows.now, result) ≡ changed not_there self.old.rows.now self.old.used at entry.row }
        ensures used { self.new.used ≡ self.old.used }
        ensures lender { self.new.rows.ghost_name ≡ self.old.rows.ghost_name }
    {
        if at >= self.used {
            return Err(NotInUse);
        }
        self.rows[at] = entry.row();
        Ok(())
    }
}

impl<'a, R: Row + EnergyFigure> Book<'a, R> {
    /// The sum of the figures of the entries, or none where it passes 64 bits.
    pub fn total(&self) -> Option<Kwh>
        ensures { result ≡ within64 (sum_of R.figure (in_use self.now)) }
    {
        total(self.in_use())
    }
}
