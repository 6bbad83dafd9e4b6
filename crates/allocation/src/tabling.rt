// The table of each direction of a period.
ghost use Rattle.std.specs.Prelude.{◌≡◌, ℕ};
ghost use Rattle.energy.specs.Grids.{figure_at};
ghost use Rattle.energy.specs.Units.{half_hour};
ghost use Rattle.energy.specs.declared.direction.Direction.TheVariants.{NorthSouth, SouthNorth};
ghost use Rattle.allocation.specs.Filings.{capacity_at, period_of};
ghost use Rattle.allocation.specs.Periods.{way};
ghost use Rattle.allocation.specs.Tables.{way_of, Sound};
ghost use Rattle.allocation.specs.Told.{grid_at, Within16};

use crate::figures::Figures;
use crate::square::transposed;
use crate::table::Table;
use crate::terms::PeriodTerms;
use energy::{Kwh, Mw};

// A constructor for each direction: in one function the type's facts would have to be shown of both directions at once.
impl Table {
    /// The table of the direction in which Northern parties send.
    pub fn north_south(terms: &PeriodTerms, figures: &Figures) -> Table
        requires { Sound (way (period_of terms.now figures.now) NorthSouth) }
        ensures { way_of result ≡ way (period_of terms.now figures.now) NorthSouth }
    {
        Table {
            senders: terms.north,
            receivers: terms.south,
            trade: figures.ns,
            matches: figures.matches,
            entitlement: half_hours(&terms.northern),
            ntc: terms.ns_ntc.half_hour(),
        }
    }

    /// The table of the direction in which Southern parties send.
    pub fn south_north(terms: &PeriodTerms, figures: &Figures) -> Table
        requires trades { Within16 (grid_at figures.now.sn) }
        requires matches { Within16 (grid_at figures.now.matches) }
        requires sound { Sound (way (period_of terms.now figures.now) SouthNorth) }
        ensures { way_of result ≡ way (period_of terms.now figures.now) SouthNorth }
    {
        Table {
            senders: terms.south,
            receivers: terms.north,
            trade: transposed(&figures.sn),
            matches: transposed(&figures.matches),
            entitlement: half_hours(&terms.southern),
            ntc: terms.sn_ntc.half_hour(),
        }
    }
}

/// Each capacity's energy over the half hour.
fn half_hours(capacities: &[Mw; 16]) -> [Kwh; 16]
    ensures { figure_at result ≡ (λ (i : ℕ). (half_hour (capacity_at capacities.now i)).0) }
{
    capacities.map(|capacity| capacity.half_hour())
}
