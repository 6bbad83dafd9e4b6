// The two sides of the interconnector.
ghost use Rattle.std.specs.Prelude.{◌≡◌};
ghost use Rattle.energy.specs.Directions.{facing, sends};

use crate::direction::Direction;

/// The side on which a party is registered.
#[derive(Clone, Copy, PartialEq, Eq, Debug)]
pub enum Side {
    Northern,
    Southern,
}

impl Side {
    /// The side across the interconnector.
    pub fn opposite(self) -> Side
        ensures { result ≡ facing self }
    {
        match self {
            Side::Northern => Side::Southern,
            Side::Southern => Side::Northern,
        }
    }

    /// The direction in which parties of this side send.
    pub fn sending(self) -> Direction
        ensures { result ≡ sends self }
    {
        match self {
            Side::Northern => Direction::NorthSouth,
            Side::Southern => Direction::SouthNorth,
        }
    }
}
