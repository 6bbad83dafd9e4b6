// The questions of a detail line that the book answers.
ghost use Rattle.std.specs.Prelude.{◌≡◌};
ghost use Rattle.book.specs.InUse.{in_use};
ghost use Rattle.intake.specs.Filing.{admitted};
ghost use Rattle.intake.specs.Intake.{space_of};
ghost use Rattle.intake.specs.Noting.{noted, grown};

use crate::fault::BookFault;
use book::{Book, FiledEntry, FiledRow, Keyed};

// What a line leaves of the book is said in three clauses here and above: a fact of the type cannot tie exit to entry.
/// Adds a line's entry behind the rows in use, where it is the first under its key and there is space.
pub(crate) fn admit(
    filed: &mut Book<'_, FiledRow>,
    line: usize,
    entry: FiledEntry,
) -> Result<(), BookFault>
    ensures rows { (filed.new.rows.now, result) ≡ noted filed.old.rows.now filed.old.used (admitted (space_of filed.old.rows.now) line (in_use filed.old) entry.row) }
    ensures used { filed.new.used ≡ grown filed.old.used result }
    ensures lender { filed.new.rows.ghost_name ≡ filed.old.rows.ghost_name }
{
    if filed.find(entry.row().key()).is_some() {
        return Err(BookFault::KnownKey { line });
    }
    filed.add(entry).map_err(|_| BookFault::BookFull { line })
}
