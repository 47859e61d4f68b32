//! What a line of a scenario changes.
ghost use Rattle.std.specs.Prelude.{◌≡◌, [], ◌∷◌};
ghost use Rattle.records.specs.Lines.{located, record_as};
ghost use Rattle.scenario.specs.Changes.{weights_of, target, change_of, line_change};

use crate::fault::Fault;
use crate::layout::{block_at, free};
use protocol::call::Call;
use protocol::weights::Prices;
use records::keyword::Section;
use records::record::{Field, Record};

/// What a line changes.
#[derive(Clone, Copy)]
pub enum Change {
    /// It gives the weights.
    Weigh(Prices),
    /// It places a reference in a block.
    Lay { reference: u16, block: u16 },
    /// It is a step.
    Make(Call),
}

// The core of a step, and the block of its reference.
fn target(core: Field<'_>, reference: Field<'_>, layout: &[u32]) -> Result<(u16, u16), Fault>
    ensures { result ≡ target layout.now (located core.entry ∷ located reference.entry ∷ []) }
{
    let core = core.number()?;
    let number = reference.number()?;
    let block = block_at(layout, number, reference.place)?;
    Ok((core, block))
}

// The weights that five fields give.
#[tactic(auto, unfolding(crate::specs::Changes::weights_of))]
fn weights(
    w1: Field<'_>,
    w2: Field<'_>,
    w3: Field<'_>,
    w4: Field<'_>,
    wm: Field<'_>,
) -> Result<Prices, Fault>
    ensures { result ≡ weights_of (located w1.entry ∷ located w2.entry ∷ located w3.entry ∷ located w4.entry ∷ located wm.entry ∷ []) }
{
    let w1 = w1.number()?;
    let w2 = w2.number()?;
    let w3 = w3.number()?;
    let w4 = w4.number()?;
    let wm = wm.number()?;
    Ok(Prices { w1, w2, w3, w4, wm })
}

// What a record changes.
fn meant(line: Record<'_>, layout: &[u32]) -> Result<Change, Fault>
    ensures { result ≡ change_of layout.now (record_as line.entry) }
{
    match line {
        Record::Weights { w1, w2, w3, w4, wm } => Ok(Change::Weigh(weights(w1, w2, w3, w4, wm)?)),
        Record::Ref { reference, block } => {
            let number = reference.number()?;
            let block = block.number()?;
            free(layout, number, reference.place)?;
            Ok(Change::Lay {
                reference: number,
                block,
            })
        }
        Record::Read { core, reference } => {
            let (core, block) = target(core, reference, layout)?;
            Ok(Change::Make(Call::Read(core, block)))
        }
        Record::Write { core, reference } => {
            let (core, block) = target(core, reference, layout)?;
            Ok(Change::Make(Call::Write(core, block)))
        }
        Record::Commit { core, reference } => {
            let (core, block) = target(core, reference, layout)?;
            Ok(Change::Make(Call::Commit(core, block)))
        }
        Record::Flush { core, reference } => {
            let (core, block) = target(core, reference, layout)?;
            Ok(Change::Make(Call::Flush(core, block)))
        }
        Record::Fetch { core } => Ok(Change::Make(Call::Fetch(core.number()?))),
        Record::Resume { core } => Ok(Change::Make(Call::Resume(core.number()?))),
    }
}

// What a line changes, which is given without its line feed.
#[tactic(auto, unfolding(crate::specs::Changes::line_change))]
pub(crate) fn line_change(
    bytes: &[u8],
    line: u32,
    section: Section,
    layout: &[u32],
) -> Result<Change, Fault>
    ensures { result ≡ line_change layout.now section line bytes.now }
{
    let record = Record::read(bytes, line, section)?;
    meant(record, layout)
}
