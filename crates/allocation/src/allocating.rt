// All allocations of a period.
ghost use Rattle.std.specs.Prelude.{◌≡◌, ℕ, ◌<◌};
ghost use Rattle.energy.specs.declared.direction.Direction.{Direction};
ghost use Rattle.energy.specs.Grids.{sum_to};
ghost use Rattle.allocation.specs.Allocation.{matched};
ghost use Rattle.allocation.specs.Filings.{period_in};
ghost use Rattle.allocation.specs.Laws.{Lawful};
ghost use Rattle.allocation.specs.Shown.{shown_in, allocated_in, way_allocated, treatment};
ghost use Rattle.allocation.specs.Tables.{way_of};
ghost use Rattle.allocation.specs.Told.{grid_at};

use crate::cut::Cut;
use crate::figures::figures_of;
use crate::shown::{Allocations, WayAllocations};
use crate::square::Square;
use crate::table::Table;
use crate::terms::PeriodTerms;
use book::FiledRow;
use energy::Kwh;
use rationing::RationingRule;

/// The allocations of a period, from the rows in use of a book, by a rationing rule.
pub fn allocate<R: RationingRule>(
    rule: &R,
    terms: &PeriodTerms,
    rows: &[FiledRow],
    period: u8,
) -> Allocations
    ensures shown { (d : Direction) (i j : ℕ) → shown_in result d i j ≡ allocated_in (R.awards rule.now) (period_in terms.now rows.now period) d i j }
    ensures law { Lawful (R.awards rule.now) (period_in terms.now rows.now period) }
{
    let figures = figures_of(terms, rows, period);
    let ns = Table::north_south(terms, &figures);
    let sn = Table::south_north(terms, &figures);
    Allocations {
        ns: WayAllocations {
            senders: terms.north,
            receivers: terms.south,
            grid: allocate_way(rule, terms.service, &ns, &sn),
        },
        sn: WayAllocations {
            senders: terms.south,
            receivers: terms.north,
            grid: allocate_way(rule, terms.service, &sn, &ns),
        },
    }
}

/// What becomes of the trades of a direction.
// An answer of its own, which one call gives and one matches.
#[derive(Clone, Copy, PartialEq, Eq, Debug)]
pub enum Treatment {
    Nil,
    Cut,
    Whole,
}

/// The allocations of one direction.
fn allocate_way<R: RationingRule>(rule: &R, service: bool, own: &Table, facing: &Table) -> Square
    requires { sum_to own.now.senders (matched (way_of own.now)) ≡ sum_to facing.now.senders (matched (way_of facing.now)) }
    ensures { (i j : ℕ) → i < own.now.senders → j < own.now.receivers → grid_at result i j ≡ way_allocated (R.awards rule.now) service (way_of own.now) (way_of facing.now) i j }
{
    let against = facing.volume();
    match treatment_of(service, own.volume(), against, own.ntc) {
        Treatment::Nil => [[Kwh(0); 16]; 16],
        Treatment::Cut => Cut {
            rule,
            table: own,
            against,
        }
        .allocations(),
        Treatment::Whole => own.trade,
    }
}

/// What becomes of a direction: nothing out of service, a cut where it is dominant and passes its net
/// transfer capacity, and otherwise its trades whole.
fn treatment_of(service: bool, total: Kwh, against: Kwh, ntc: Kwh) -> Treatment
    ensures { result ≡ treatment service total.0 against.0 ntc.0 }
{
    if !service {
        Treatment::Nil
    } else if total > against && Kwh(total.0 - against.0) > ntc {
        Treatment::Cut
    } else {
        Treatment::Whole
    }
}
