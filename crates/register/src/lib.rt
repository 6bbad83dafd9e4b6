// The register of parties, and the table of what is in force in each period.
#![tactic(auto)]

mod limits;
mod party;
mod period_row;
mod period_table;
mod refusal;
mod register;
mod registered;

pub use period_table::PeriodTable;
pub use refusal::{AssignmentRefusal, OverLimit, RegistrationRefusal};
pub use register::Register;
pub use registered::Registered;
