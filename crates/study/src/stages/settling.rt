//! How a study ends.
ghost use Rattle.std.specs.Prelude.{◌≡◌};
ghost use Rattle.study.specs.Settling.{quote_of};

use crate::stages::{Run, Settled};
use memory::Memory;
use row::Row;

impl<R: Row, M: Memory> Run<R, M> {
    /// Ends the run.
    pub fn settle(self) -> Settled<R, M>
        ensures row { result.row ≡ self.row }
        ensures memory { result.memory ≡ self.memory }
        ensures quote { result.quote ≡ quote_of self.counts }
    {
        let Run {
            row,
            memory,
            weights: _,
            counts,
        } = self;
        Settled {
            row,
            memory,
            quote: counts.quote(),
        }
    }
}
