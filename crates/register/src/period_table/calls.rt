// What a table of periods can be asked, and told.
ghost use Rattle.std.specs.Prelude.{◌≡◌, ◌-◌};
ghost use Rattle.register.specs.PeriodRows.{ntc_in, with_service};
ghost use Rattle.register.specs.PeriodTables.{default_rows, row_at, row_changed, ntc_posted, rate_posted};

use crate::limits::{LARGEST_MW, LARGEST_RATE, up_to};
use crate::period_row::PeriodRow;
use crate::period_table::PeriodTable;
use crate::refusal::OverLimit;
use calendar::Period;
use energy::{Direction, Mw, Rate};

impl PeriodTable {
    /// The table before anything is posted.
    pub fn defaults() -> PeriodTable
        ensures { result.rows ≡ default_rows }
    {
        PeriodTable {
            rows: [PeriodRow::plain(); 50],
        }
    }

    /// Takes back all that was posted.
    pub fn reset(&mut self)
        ensures { self.new.rows ≡ default_rows }
    {
        *self = PeriodTable::defaults();
    }

    /// The net transfer capacity of a period and a direction.
    pub fn ntc(&self, period: Period, direction: Direction) -> Mw
        ensures { result ≡ ntc_in direction (row_at period self.now.rows) }
    {
        self.row(period).ntc(direction)
    }

    /// Whether the link is in service in a period.
    pub fn in_service(&self, period: Period) -> bool
        ensures { result ≡ (row_at period self.now.rows).service }
    {
        self.row(period).in_service()
    }

    /// The rate of a period, if one was posted.
    pub fn rate(&self, period: Period) -> Option<Rate>
        ensures { result ≡ (row_at period self.now.rows).rate }
    {
        self.row(period).rate()
    }

    /// Posts the net transfer capacity of a period and a direction.
    pub fn post_ntc(
        &mut self,
        period: Period,
        direction: Direction,
        ntc: Mw,
    ) -> Result<(), OverLimit>
        ensures { (self.new.rows, result) ≡ ntc_posted period direction ntc self.old.rows }
    {
        let ntc = up_to(LARGEST_MW, ntc)?;
        self.rows[place(period)].post_ntc(direction, ntc);
        Ok(())
    }

    /// Takes the link into service in a period, or out of it.
    pub fn set_service(&mut self, period: Period, on: bool)
        ensures { self.new.rows ≡ row_changed period (with_service on) self.old.rows }
    {
        self.rows[place(period)].set_service(on);
    }

    /// Posts the rate of a period.
    pub fn post_rate(&mut self, period: Period, rate: Rate) -> Result<(), OverLimit>
        ensures { (self.new.rows, result) ≡ rate_posted period rate self.old.rows }
    {
        let rate = up_to(LARGEST_RATE, rate)?;
        self.rows[place(period)].post_rate(rate);
        Ok(())
    }

    /// What is in force in a period.
    fn row(&self, period: Period) -> PeriodRow
        ensures { result ≡ row_at period self.now.rows }
    {
        self.rows[place(period)]
    }
}

/// The place of a period in the table.
fn place(period: Period) -> usize
    ensures { result ≡ period.number - 1 }
{
    period.number() as usize - 1
}
