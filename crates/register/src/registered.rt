// Where a party is registered.
use energy::Side;

/// The side of a party and its number there.
#[derive(Clone, Copy, PartialEq, Eq, Debug)]
pub struct Registered {
    pub side: Side,
    pub number: u8,
}
