// One direction of a period, as the code holds it. The struct stands alone: what is said of it elsewhere names it.
ghost use Rattle.std.specs.Prelude.{ℕ, ◌≤◌};
ghost use Rattle.energy.specs.Grids.{figure_at, sum_to};
ghost use Rattle.allocation.specs.Told.{grid_at};

use crate::square::Square;
use energy::Kwh;

mod totals;

/// One direction: its senders and receivers, their validated trades and matches, the senders'
/// entitlements and the net transfer capacity. All of them keep limits, and matches stay within trades.
// Trades, matches and entitlements lie in arrays of their own, since a rule takes the claims of all
// senders as one slice. The arrays lie beside counts: the table is Copy, and an ArrayVec is not.
#[derive(Clone, Copy)]
pub struct Table {
    pub senders: usize,
    pub receivers: usize,
    pub trade: Square,
    pub matches: Square,
    pub entitlement: [Kwh; 16],
    pub ntc: Kwh,
    ghost sending: { senders ≤ 16 },
    ghost receiving: { receivers ≤ 16 },
    ghost smalltrades: { (i j : ℕ) → grid_at trade i j ≤ 9999999 },
    ghost smallmatches: { (i j : ℕ) → grid_at matches i j ≤ 9999999 },
    ghost entitled: { (i : ℕ) → figure_at entitlement i ≤ 79992000 },
    ghost capacity: { ntc.0 ≤ 2147483647500 },
    ghost fits: { (i : ℕ) → sum_to receivers (grid_at matches i) ≤ sum_to receivers (grid_at trade i) },
}
