// Worked numbers: as theorems about the definitions, and run as tests of the code.
#![tactic(auto)]

ghost use Rattle.worked.specs.Allocations.{WorkedAllocations};
ghost use Rattle.worked.specs.Rationing.{WorkedAwards};

#[cfg(test)]
mod allocation_tests;
#[cfg(test)]
mod rationing_tests;

/// The worked awards of both rules follow from the rules' definitions.
pub fn worked_awards() -> u8
    ensures { WorkedAwards }
{
    0
}

/// The worked allocations follow from the definitions, from filed rows on.
pub fn worked_allocations() -> u8
    ensures { WorkedAllocations }
{
    0
}
