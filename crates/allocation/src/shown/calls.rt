// What the allocations of a period can be asked.
ghost use Rattle.std.specs.Prelude.{◌≡◌};
ghost use Rattle.allocation.specs.Shown.{shown_in, figure_within};

use crate::shown::{Allocations, WayAllocations};
use energy::{Direction, Kwh};

impl Allocations {
    /// What a sender's trade with a receiver is allocated; nil where either is not registered.
    pub fn kwh(&self, direction: Direction, sender: usize, receiver: usize) -> Kwh
        ensures { result.0 ≡ shown_in self.now direction sender receiver }
    {
        match direction {
            Direction::NorthSouth => self.ns.kwh(sender, receiver),
            Direction::SouthNorth => self.sn.kwh(sender, receiver),
        }
    }
}

impl WayAllocations {
    /// The figure of a sender and a receiver, nil where either is not registered.
    fn kwh(&self, sender: usize, receiver: usize) -> Kwh
        ensures { result.0 ≡ figure_within self.now.grid self.now.senders self.now.receivers sender receiver }
    {
        if sender < self.senders && receiver < self.receivers {
            self.grid[sender][receiver]
        } else {
            Kwh(0)
        }
    }
}
