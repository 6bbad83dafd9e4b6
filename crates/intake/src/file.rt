// A nomination file into a book, whole or not at all.
ghost use Rattle.std.specs.Prelude.{◌≡◌, min, length, take};
ghost use Rattle.intake.specs.Intake.{day_of, space_of, handed_in, used_after};

use crate::asked_day::AskedDay;
use crate::fault::FileFault;
use crate::filing::Filing;
use crate::taken::Taken;
use crate::terms::FileTerms;
use book::{Book, FiledRow};
use nomination::LineReader;
use register::Register;

/// Takes a nomination file into the book whose first `used` rows are in use, and answers how many are in use then; or
/// refuses it, and changes no row in use.
pub fn take_file(
    register: &Register,
    terms: FileTerms,
    rows: &mut [FiledRow],
    used: usize,
    text: &[u8],
) -> Result<Taken, FileFault>
    ensures { (take (used_after (min used (length rows.old)) result) rows.new, result) ≡ handed_in (day_of register.now terms) (space_of rows.old) (take used rows.old) text.now }
{
    let day = AskedDay { register, terms };
    let mut reader = LineReader::over(text);
    let filer = day.take_header(&mut reader)?;
    Filing { day, filer }.take_lines(&mut Book::over(rows, used), reader)
}
