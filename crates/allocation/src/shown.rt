// The allocations of a period. The structs stand alone: what is said of them elsewhere names them.
ghost use Rattle.std.specs.Prelude.{◌≤◌};

use crate::square::Square;

mod calls;

/// The allocations of one direction, of each sender to each receiver.
// A square beside its counts: the allocations are Copy, and an ArrayVec is not.
#[derive(Clone, Copy)]
pub struct WayAllocations {
    pub(crate) senders: usize,
    pub(crate) receivers: usize,
    pub(crate) grid: Square,
    ghost sending: { senders ≤ 16 },
    ghost receiving: { receivers ≤ 16 },
}

/// The allocations of a period in both directions.
#[derive(Clone, Copy)]
pub struct Allocations {
    pub(crate) ns: WayAllocations,
    pub(crate) sn: WayAllocations,
}
