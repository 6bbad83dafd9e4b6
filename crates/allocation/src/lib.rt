// The allocated trades of a period, and the laws of flow and of service.
#![tactic(auto)]

ghost use Rattle.allocation.specs.Laws.{LawOfFlow, FlowsMeet};

mod allocating;
mod cell;
mod cut;
mod figures;
mod grid;
mod matching;
mod share;
mod shown;
mod square;
mod table;
mod tabling;
mod terms;
mod told;

pub use allocating::allocate;
pub use shown::Allocations;
pub use terms::PeriodTerms;

/// The laws stand for every rule that keeps the quota law: a proof and no work.
pub fn laws_stand() -> u8
    ensures flow { LawOfFlow }
    ensures meet { FlowsMeet }
{
    0
}
