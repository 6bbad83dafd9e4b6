// What the filings of two parties tell of them: the validated trades and the agreed match.
ghost use Rattle.std.specs.Prelude.{◌≡◌};
ghost use Rattle.allocation.specs.Told.{told_ns, told_sn, told_match};

use crate::cell::Cell;
use energy::Kwh;

// A method for each direction: one that took the amount as a closure would have to tell what the closure answers.
impl Cell {
    /// The validated trade from North to South.
    pub fn ns_trade(&self) -> Kwh
        ensures { result.0 ≡ told_ns self.now }
    {
        match (self.north_trade, self.south_trade) {
            (Some(one), Some(other)) if one.ns == other.ns => one.ns,
            _ => Kwh(0),
        }
    }

    /// The validated trade from South to North.
    pub fn sn_trade(&self) -> Kwh
        ensures { result.0 ≡ told_sn self.now }
    {
        match (self.north_trade, self.south_trade) {
            (Some(one), Some(other)) if one.sn == other.sn => one.sn,
            _ => Kwh(0),
        }
    }

    /// The agreed match.
    pub fn agreed_match(&self) -> Kwh
        ensures { result.0 ≡ told_match self.now }
    {
        match (self.north_match, self.south_match) {
            (Some(one), Some(other))
                if one.ns == one.sn && one.ns == other.ns && one.ns == other.sn => one.ns,
            _ => Kwh(0),
        }
    }
}
