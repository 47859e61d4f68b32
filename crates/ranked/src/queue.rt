//! The queue: a tier of a few lines that gives out the block that was put longest ago.
ghost use Rattle.std.specs.Prelude.{false, IfOk};
ghost use Rattle.tier.specs.Building.{Builds};
ghost use Rattle.ranks.specs.Ranks.{asked};
ghost use Rattle.ranked.specs.Queue.{queue_of};
ghost use Rattle.ranked.specs.Ages.{OldestLeaves};

use crate::policy::Fifo;
use crate::ranked::Ranked;
use parts::refusal::BuildError;
use std::alloc::Global;

pub type Queue = Ranked<Fifo>;

impl Ranked<Fifo> {
    /// An empty queue of 1 to 16 lines.
    pub fn new(heap: Global, lines: usize) -> Result<Queue, BuildError<Queue>>
        ensures built { Builds queue_of result (asked false lines) }
        ensures law { IfOk result (λ q. OldestLeaves false 1 lines (queue_of q)) }
    {
        Ranked::with_policy(heap, Fifo, lines)
    }
}
