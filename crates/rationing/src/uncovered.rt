// Claims that the amount does not cover.
ghost use Rattle.std.specs.Prelude.{◌≡◌};
ghost use Rattle.energy.specs.Totals.{sum_kwh};

use crate::shortfall::Shortfall;
use energy::Kwh;

/// Claims beside an amount that falls short of their sum.
#[derive(Clone, Copy)]
pub struct Uncovered<'a> {
    pub shortfall: Shortfall,
    pub claims: &'a [Kwh],
    ghost summed: { shortfall.sum.0 ≡ sum_kwh claims.now },
}
