// The validated trades and matches of a period.
ghost use Rattle.std.specs.Prelude.{◌≡◌};
ghost use Rattle.allocation.specs.Told.{grid_at};
ghost use Rattle.allocation.specs.Trades.{valid_ns, valid_sn, valid_match};

use crate::cell::Cell;
use crate::grid::file_rows;
use crate::matching::{fitting, match_grid};
use crate::square::{Square, square_of, transposed};
use crate::terms::PeriodTerms;
use book::FiledRow;

/// Validated trades and matches by Northern and Southern party.
#[derive(Clone, Copy)]
pub struct Figures {
    pub ns: Square,
    pub sn: Square,
    pub matches: Square,
}

/// What the rows hold of a period, for the parties of its terms.
pub fn figures_of(terms: &PeriodTerms, rows: &[FiledRow], period: u8) -> Figures
    ensures ns { grid_at result.ns ≡ valid_ns rows.now period }
    ensures sn { grid_at result.sn ≡ valid_sn rows.now period }
    ensures matches { grid_at result.matches ≡ valid_match terms.now.north terms.now.south rows.now period }
{
    let mut cells = [[Cell::default(); 16]; 16];
    file_rows(&mut cells, rows, period);
    let ns = square_of(|n, s| cells[n][s].ns_trade());
    let sn = square_of(|n, s| cells[n][s].sn_trade());
    let agreed = square_of(|n, s| cells[n][s].agreed_match());
    let own = fitting(&agreed, &ns, terms.south);
    let facing = fitting(&transposed(&agreed), &transposed(&sn), terms.north);
    let matches = match_grid(&agreed, &own, &facing);
    Figures { ns, sn, matches }
}
