// The kWh figures that rows tell, for totals over a book. Each kind has its own impl: one for all rows is refused, since
// the trait is another crate's.
ghost use Rattle.book.specs.Figures.{filed_figure, reading_figure};

use crate::filed_row::FiledRow;
use crate::reading_row::ReadingRow;
use crate::row::Row;
use energy::{EnergyFigure, Kwh};

impl EnergyFigure for FiledRow {
    ghost figure = { filed_figure };

    fn kwh(&self) -> Kwh {
        self.entry()
            .map_or(Kwh(0), |entry| Kwh(entry.row().ns.0 + entry.row().sn.0))
    }
}

impl EnergyFigure for ReadingRow {
    ghost figure = { reading_figure };

    fn kwh(&self) -> Kwh {
        self.entry().map_or(Kwh(0), |entry| Kwh(entry.row().local.0 + entry.row().plg.0))
    }
}
