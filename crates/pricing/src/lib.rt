// What spill and makeup cost: Demand Error, the makeup factor table, and the editions of the prices.
#![tactic(auto)]

mod amount;
mod demand_error;
mod edition;
mod edition3;
mod edition4;
mod factor;
mod limited;
mod limited_energy;
mod limited_rate;
mod makeup;
mod price_edition;
mod spill;
mod theorems;

pub use amount::Amount;
pub use demand_error::DemandError;
pub use edition::Edition;
pub use edition3::Edition3;
pub use edition4::Edition4;
pub use factor::Factor;
pub use limited::{Limited, PricedEnergy, PricedRate, Shortage};
pub use makeup::Makeup;
pub use price_edition::PriceEdition;
pub use spill::Spilled;
pub use theorems::{prices_stand, within_limits};
