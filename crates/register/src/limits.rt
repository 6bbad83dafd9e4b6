// The limits of a register and of a period table.
ghost use Rattle.std.specs.Prelude.{◌≡◌, cond};
ghost use Rattle.std.specs.Ordering.{is_some_and, is_le};
ghost use Rattle.register.specs.Refusals.{over_limit};

use crate::refusal::OverLimit;
use energy::{Mw, Rate};

/// How many parties a side has at most.
pub(crate) const MOST_PARTIES: usize = 16;

/// The largest entitlement or net transfer capacity.
pub(crate) const LARGEST_MW: Mw = Mw(9_999);

/// The largest rate.
pub(crate) const LARGEST_RATE: Rate = Rate(100_000);

/// A figure that is at most so large.
pub(crate) fn up_to<T: PartialOrd + Drop>(largest: T, figure: T) -> Result<T, OverLimit>
    ensures { result ≡ cond (is_some_and is_le (T.partial_cmp figure largest)) (Ok figure) (Err over_limit) }
{
    if figure <= largest {
        Ok(figure)
    } else {
        Err(OverLimit)
    }
}
