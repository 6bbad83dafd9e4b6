// Sharing an amount of energy out among claims, in whole kWh.
#![tactic(auto)]

mod admission;
mod chosen_rule;
mod dividing;
mod refusal;
mod register_rule;
mod rule;
mod running_rule;
mod share;
mod shortfall;
mod uncovered;

pub use chosen_rule::ChosenRule;
pub use refusal::RationingRefusal;
pub use register_rule::RegisterRule;
pub use rule::RationingRule;
pub use running_rule::RunningRule;
pub use share::{ExactShare, exact_share};
