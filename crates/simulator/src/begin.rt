//! How the study begins that a text asks for.
ghost use Rattle.std.specs.Prelude.{◌≡◌, IfErr, OnOk};
ghost use Rattle.protocol.specs.Prices.{weighing};
ghost use Rattle.study.specs.Opening.{started};
ghost use Rattle.study.specs.Stages.{weighed_as, answer_of};
ghost use Rattle.study.specs.Warrant.{Warranted};
ghost use Rattle.protocol.specs.Weighing.{prices_of};
ghost use Rattle.simulator.specs.Inner.{begun_as};
ghost use Rattle.simulator.specs.Simulation.{as_study};

use memory::Memory;
use protocol::weights::Prices;
use row::Row;
use scenario::fault::Fault;
use study::stages::{Draft, RefusedDraft, Run};

/// A study that was not opened: why, and the row and the memory as they were.
#[derive(Drop)]
pub struct Refused<R, M> {
    pub fault: Fault,
    pub row: R,
    pub memory: M,
}

impl<R: Row, M: Memory> From<RefusedDraft<R, M>> for Refused<R, M> {
    ghost use Rattle.scenario.specs.declared.fault.Fault.TheVariants.{Study};

    ghost from_gives = { λ d e. (e.fault ≡ Study d.refusal) × (e.row ≡ d.draft.row) × (e.memory ≡ d.draft.memory) };

    fn from(refused: RefusedDraft<R, M>) -> Refused<R, M> {
        let (row, memory) = refused.draft.into_parts();
        Refused {
            fault: Fault::from(refused.refusal),
            row,
            memory,
        }
    }
}

// Weighs a draft, as a scenario asks for it.
fn weigh<R: Row, M: Memory>(draft: &mut Draft<R, M>, prices: Prices) -> Result<(), Fault>
    ensures row { draft.new.row ≡ draft.old.row }
    ensures memory { draft.new.memory ≡ draft.old.memory }
    ensures weights { prices_of draft.new.weights ≡ weighed_as (weighing prices) (prices_of draft.old.weights) }
    ensures answer { result ≡ as_study (answer_of (weighing prices)) }
{
    draft.weigh(prices)?;
    Ok(())
}

// Weighs and opens a study. If it is refused, row and memory are untouched.
pub(crate) fn begin<R: Row, M: Memory>(
    prices: Prices,
    row: R,
    memory: M,
) -> Result<Run<R, M>, Refused<R, M>>
    ensures run { begun_as R.cores M.meaning result ≡ as_study (started (weighing prices) (R.cores row) (M.meaning memory)) }
    ensures back { IfErr result (λ e. (e.row ≡ row) × (e.memory ≡ memory)) }
    ensures warrant { OnOk result (Warranted (R.cores row) (M.meaning memory) prices) }
{
    let mut draft = Draft::new(row, memory);
    if let Err(fault) = weigh(&mut draft, prices) {
        let (row, memory) = draft.into_parts();
        return Err(Refused { fault, row, memory });
    }
    Ok(draft.open()?)
}
