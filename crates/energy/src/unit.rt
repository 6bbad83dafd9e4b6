// Energy, capacity, rates and money, each a type of its own, so that none is taken for another.
ghost use Rattle.std.specs.Prelude.{◌≡◌, Some};
ghost use Rattle.energy.specs.Units.{half_hour, kwh_text};

use std::fmt;

/// Energy in whole kilowatt-hours.
#[derive(Clone, Copy, PartialEq, Eq, PartialOrd, Ord, Debug)]
pub struct Kwh(pub u64);

/// Capacity in whole megawatts: 32 bits, so that every capacity has its energy in 64.
#[derive(Clone, Copy, PartialEq, Eq, PartialOrd, Ord, Debug)]
pub struct Mw(pub u32);

/// A price of energy in whole millipence per kWh.
#[derive(Clone, Copy, PartialEq, Eq, PartialOrd, Ord, Debug)]
pub struct Rate(pub u64);

/// Money in whole micropence.
#[derive(Clone, Copy, PartialEq, Eq, PartialOrd, Ord, Debug)]
pub struct Micropence(pub u64);

impl Mw {
    /// The energy of this capacity over one half hour; the only way from capacity to energy.
    pub fn half_hour(self) -> Kwh
        ensures { result ≡ half_hour self }
    {
        Kwh(self.0 as u64 * 500)
    }
}

impl fmt::Display for Kwh {
    ghost output = { λ energy. Some (kwh_text energy) };

    fn fmt<W: fmt::Write>(&self, f: &mut fmt::Formatter<W>) -> fmt::Result {
        let number = self.0;
        write!(f, "{number} kWh")
    }
}
