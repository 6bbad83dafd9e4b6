// What a direction's trades and matches total.
ghost use Rattle.std.specs.Prelude.{◌≡◌, ◌+◌, ◌<◌, min};
ghost use Rattle.allocation.specs.Allocation.{traded, matched, unmatched, volume};
ghost use Rattle.allocation.specs.Tables.{way_of};
ghost use Rattle.allocation.specs.Told.{IsRow};

use crate::square::sum_of;
use crate::table::Table;
use energy::Kwh;
use std::array;

// Places below 16 are plain numbers, as `from_fn` gives them: a type for them would be taken apart at each array.
impl Table {
    /// A sender's validated trade.
    pub fn traded_by(&self, i: usize) -> Kwh
        requires { i < 16 }
        ensures { result.0 ≡ traded (way_of self.now) i }
    {
        sum_of(&self.trade[i][..self.receivers])
    }

    // Beside the call above: each names its own field, which is plainer than one that is handed the field.
    /// A sender's matched trade.
    pub fn matched_by(&self, i: usize) -> Kwh
        requires { i < 16 }
        ensures { result.0 ≡ matched (way_of self.now) i }
    {
        sum_of(&self.matches[i][..self.receivers])
    }

    /// What a sender keeps with this award: its matched trade, and the lesser of its unmatched trade and the award.
    pub fn kept_by(&self, i: usize, award: Kwh) -> Kwh
        requires { i < 16 }
        ensures { result.0 ≡ matched (way_of self.now) i + min (unmatched (way_of self.now) i) award.0 }
    {
        let matches = self.matched_by(i).0;
        Kwh(matches + (self.traded_by(i).0 - matches).min(award.0))
    }

    /// The total of the direction's validated trades.
    pub fn volume(&self) -> Kwh
        ensures { result.0 ≡ volume (way_of self.now) }
    {
        sum_of(&self.traded_by_all()[..self.senders])
    }

    /// Each sender's validated trade.
    fn traded_by_all(&self) -> [Kwh; 16]
        ensures { IsRow result (traded (way_of self.now)) }
    {
        array::from_fn(|i| self.traded_by(i))
    }
}
