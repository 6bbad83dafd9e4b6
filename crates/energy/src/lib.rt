// Units, sides, directions and party codes, and the one routine that adds up kWh figures.
#![tactic(auto)]

// The modules are public beside the names that the root passes on: callers may use either path.
pub mod direction;
pub mod figure;
pub mod party_code;
pub mod side;
pub mod unit;

pub use direction::Direction;
pub use figure::{EnergyFigure, total};
pub use party_code::PartyCode;
pub use side::Side;
pub use unit::{Kwh, Micropence, Mw, Rate};
