//! How a study begins: a draft is made, weighed and opened.
ghost use Rattle.std.specs.Prelude.{◌≡◌, IfErr, OnOk};
ghost use Rattle.memory.specs.Meaning.{size_of};
ghost use Rattle.protocol.specs.Prices.{none, weighing, WeighingTold};
ghost use Rattle.protocol.specs.Weighing.{prices_of};
ghost use Rattle.study.specs.Opening.{zeroed, opening};
ghost use Rattle.study.specs.Questions.{OpeningTold};
ghost use Rattle.study.specs.Stages.{opened_as, weighed_as, answer_of};
ghost use Rattle.study.specs.Warrant.{Warranted};

use crate::counts::Counts;
use crate::stages::{Draft, RefusedDraft, Run};
use crate::transfers::store;
use memory::Memory;
use protocol::refusal::Refusal;
use protocol::weights::{Prices, Weights};
use row::{MOST_CORES, Row};

// Stores stamp 0 in every block, in rising order.
#[tactic(auto, unfolding(crate::specs::Opening::zeroed))]
fn zero<M: Memory>(memory: &mut M)
    ensures { M.Memory.meaning memory.new ≡ zeroed (size_of (M.Memory.meaning memory.old)) (M.Memory.meaning memory.old) }
{
    let size = memory.size();
    for block in 0..size {
        // `as` is proved to lose nothing: `try_from` would bring an error that cannot come
        store(memory, block as u16, 0);
    }
}

impl<R: Row, M: Memory> Draft<R, M> {
    /// A draft whose weights are all 0.
    pub fn new(row: R, memory: M) -> Draft<R, M>
        ensures row { result.row ≡ row }
        ensures memory { result.memory ≡ memory }
        ensures weights { prices_of result.weights ≡ none }
    {
        Draft {
            row,
            memory,
            weights: Weights::zero(),
        }
    }

    /// Sets the weights, or none of them if one is above 1,000.
    #[tactic(auto, using(protocol::proofs::Affording::weighing_told))]
    pub fn weigh(&mut self, prices: Prices) -> Result<(), Refusal>
        ensures row { self.new.row ≡ self.old.row }
        ensures memory { self.new.memory ≡ self.old.memory }
        ensures weights { prices_of self.new.weights ≡ weighed_as (weighing prices) (prices_of self.old.weights) }
        ensures answer { result ≡ answer_of (weighing prices) }
        ensures asked { WeighingTold prices (weighing prices) }
    {
        self.weights = Weights::try_from(prices)?;
        Ok(())
    }

    /// Opens the study: clears every tier, makes every core ready and stores stamp 0 in every block. From then on the run is
    /// warranted, whatever its calls. A draft that is refused comes back whole, with nothing touched.
    pub fn open(self) -> Result<Run<R, M>, RefusedDraft<R, M>>
        ensures run { opened_as R.cores M.meaning result ≡ opening (R.cores self.row) (M.meaning self.memory) (prices_of self.weights) }
        ensures asked { OpeningTold (R.cores self.row) (M.meaning self.memory) (prices_of self.weights) (opened_as R.cores M.meaning result) }
        ensures back { IfErr result (λ e. e.draft ≡ self) }
        ensures warrant { OnOk result (Warranted (R.cores self.row) (M.meaning self.memory) (prices_of self.weights)) }
    {
        if self.row.count() > MOST_CORES {
            return Err(RefusedDraft {
                refusal: Refusal::TooManyCores,
                draft: self,
            });
        }
        if self.memory.size() == 0 {
            return Err(RefusedDraft {
                refusal: Refusal::NoBlocks,
                draft: self,
            });
        }
        let Draft {
            mut row,
            mut memory,
            weights,
        } = self;
        row.renew();
        zero(&mut memory);
        Ok(Run {
            row,
            memory,
            weights,
            counts: Counts::zero(),
        })
    }

    /// The row and the memory, as they are.
    pub fn into_parts(self) -> (R, M)
        ensures { (result.0 ≡ self.row) × (result.1 ≡ self.memory) }
    {
        let Draft {
            row,
            memory,
            weights: _,
        } = self;
        (row, memory)
    }
}
