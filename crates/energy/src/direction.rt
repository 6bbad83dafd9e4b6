// The two directions of trade.
ghost use Rattle.std.specs.Prelude.{◌≡◌, Some};
ghost use Rattle.energy.specs.Directions.{other, sender, receiver, direction_text};

use crate::side::Side;
use std::fmt;

/// The direction of a trade: from north to south (NS) or from south to north (SN).
#[derive(Clone, Copy, PartialEq, Eq, Debug)]
pub enum Direction {
    NorthSouth,
    SouthNorth,
}

impl Direction {
    /// The direction against this one.
    pub fn opposite(self) -> Direction
        ensures { result ≡ other self }
    {
        match self {
            Direction::NorthSouth => Direction::SouthNorth,
            Direction::SouthNorth => Direction::NorthSouth,
        }
    }

    /// The side that sends in this direction.
    pub fn sending_side(self) -> Side
        ensures { result ≡ sender self }
    {
        match self {
            Direction::NorthSouth => Side::Northern,
            Direction::SouthNorth => Side::Southern,
        }
    }

    /// The side that receives in this direction.
    pub fn receiving_side(self) -> Side
        ensures { result ≡ receiver self }
    {
        self.sending_side().opposite()
    }
}

impl fmt::Display for Direction {
    ghost output = { λ direction. Some (direction_text direction) };

    fn fmt<W: fmt::Write>(&self, f: &mut fmt::Formatter<W>) -> fmt::Result {
        match self {
            Direction::NorthSouth => write!(f, "NS"),
            Direction::SouthNorth => write!(f, "SN"),
        }
    }
}
