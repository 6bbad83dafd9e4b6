// All filings of one period, by Northern and Southern party.
ghost use Rattle.std.specs.Prelude.{◌≡◌};
ghost use Rattle.allocation.specs.Cells.{cell_of};
ghost use Rattle.allocation.specs.Grids.{cell_in, empty_grid, standing};

use crate::cell::Cell;
use book::FiledRow;

/// Files a period's rows in empty cells, one for each Northern and each Southern party, in one pass. It goes
/// from the last row to the first, so that the first entry under a key is the one that stays.
// The cells are the caller's, since a result of this size is copied.
pub fn file_rows(cells: &mut [[Cell; 16]; 16], rows: &[FiledRow], period: u8)
    requires { cells.old ≡ empty_grid }
    ensures { cell_in cells.new ≡ cell_of rows.now period }
{
    for row in rows.iter().rev() {
        if stands_in(row, period) {
            let north = row.north as usize;
            let south = row.south as usize;
            cells[north][south].file(row);
        }
    }
}

/// Whether a row stands for an entry of this period.
fn stands_in(row: &FiledRow, period: u8) -> bool
    ensures { result ≡ standing row.now period }
{
    row.passes() && row.period == period
}
