// The makeup factor table.
ghost use Rattle.std.specs.Prelude.{◌≡◌, ◌≤◌};
ghost use Rattle.pricing.specs.Factors.{place_in, factor_of, factor_in};

use calendar::{FactorColumn, Period, Row, TradingDay, table_row};

// A constant, over which range and bands are proved once.
/// The factors in tenths: a line for each row from 1 on, with the columns in the order of `FactorColumn`.
const FACTORS: [[u8; 6]; 48] = [
    [10, 10, 10, 10, 10, 10],
    [10, 10, 10, 10, 10, 10],
    [10, 10, 10, 10, 10, 10],
    [10, 10, 10, 10, 10, 10],
    [10, 10, 10, 10, 10, 10],
    [10, 10, 10, 10, 10, 10],
    [10, 10, 10, 10, 10, 10],
    [10, 10, 10, 10, 10, 10],
    [10, 10, 10, 10, 10, 10],
    [10, 10, 10, 10, 10, 10],
    [10, 10, 10, 10, 10, 10],
    [10, 10, 10, 10, 10, 10],
    [10, 10, 10, 10, 10, 10],
    [10, 10, 10, 10, 10, 10],
    [10, 10, 10, 10, 10, 10],
    [10, 10, 10, 10, 10, 10],
    [10, 11, 11, 10, 10, 15],
    [10, 11, 11, 10, 10, 15],
    [10, 11, 11, 10, 10, 15],
    [10, 11, 11, 10, 10, 15],
    [10, 11, 11, 10, 10, 15],
    [10, 11, 11, 10, 10, 15],
    [10, 11, 11, 10, 10, 15],
    [10, 11, 11, 10, 10, 15],
    [10, 11, 11, 10, 10, 15],
    [10, 11, 11, 10, 10, 15],
    [11, 14, 11, 12, 12, 15],
    [11, 14, 11, 12, 12, 15],
    [11, 14, 12, 12, 12, 15],
    [11, 14, 12, 12, 12, 15],
    [11, 14, 12, 12, 12, 15],
    [11, 14, 12, 12, 12, 15],
    [11, 14, 12, 12, 12, 15],
    [11, 14, 12, 15, 15, 12],
    [11, 14, 12, 15, 15, 12],
    [11, 14, 12, 15, 15, 12],
    [11, 14, 12, 15, 15, 12],
    [12, 15, 12, 12, 12, 12],
    [12, 15, 12, 12, 12, 12],
    [12, 15, 12, 12, 12, 12],
    [12, 15, 12, 12, 12, 12],
    [12, 15, 12, 11, 11, 12],
    [12, 15, 12, 11, 11, 12],
    [12, 15, 12, 11, 11, 12],
    [12, 15, 12, 11, 11, 12],
    [12, 15, 12, 10, 10, 12],
    [10, 10, 10, 10, 10, 12],
    [10, 10, 10, 10, 10, 12],
];

/// What the makeup rate is multiplied by, from 1.0 to 1.5, in tenths.
#[derive(Clone, Copy, PartialEq, Eq, Debug)]
pub struct Factor {
    pub(crate) tenths: u8,
    ghost least: { 10 ≤ tenths },
    ghost most: { tenths ≤ 15 },
}

impl Factor {
    /// The factor at a column and a row of the table.
    pub fn at(column: FactorColumn, row: Row) -> Factor
        ensures { result.tenths ≡ factor_of column row.number }
    {
        Factor {
            tenths: stored(column, row),
        }
    }

    /// The factor of a period of a day.
    pub fn of_period(day: TradingDay, period: Period) -> Factor
        ensures { result.tenths ≡ factor_in day period }
    {
        Factor::at(day.factor_column(), table_row(day.length(), period))
    }

    /// The factor in tenths.
    pub fn tenths(self) -> u8
        ensures { result ≡ self.tenths }
    {
        self.tenths
    }
}

/// The number that the table has at a column and a row.
fn stored(column: FactorColumn, row: Row) -> u8
    ensures value { result ≡ factor_of column row.number }
    ensures least { 10 ≤ result }
    ensures most { result ≤ 15 }
{
    FACTORS[row.number() as usize - 1][place(column)]
}

/// The place of a column in a line of the table.
// A function of its own: where the table is read, the cast would leave a goal on the tag of the enum.
fn place(column: FactorColumn) -> usize
    ensures { result ≡ place_in column }
{
    column as usize
}
