// The table of periods. The struct stands alone: what is said of it elsewhere names it.
ghost use Rattle.std.specs.Prelude.{◌≡◌, true};
ghost use Rattle.register.specs.PeriodRows.{rows_within};

use crate::period_row::PeriodRow;

mod calls;

/// What is in force in each of the 50 periods of the longest day. No net transfer capacity is above 9,999 MW, and no
/// rate above 100,000 millipence per kWh.
#[derive(Drop)]
pub struct PeriodTable {
    rows: [PeriodRow; 50],
    ghost within: { rows_within rows ≡ true },
}
