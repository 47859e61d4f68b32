//! Scenarios, and the two texts of a single study.
ghost use Rattle.std.specs.Prelude.{◌≡◌};
ghost use Rattle.scenario.specs.Reading.{read_as};
ghost use Rattle.scenario.specs.Texts.{scenario_of, single_of, table_after};

use crate::fault::{Fault, File, FileFault, LayoutFault};
use crate::layout::{REFERENCES, UNPLACED, unplace};
use crate::reader::read;
use crate::text::Text;
use records::keyword::Section;

// At first nothing is placed.
const NOTHING_PLACED: [u32; REFERENCES] = [UNPLACED; REFERENCES];

/// Reads a scenario. Its placements stand in the table then; if it has a fault, nothing is placed, but for a table of the wrong
/// length, which is left as it was.
pub fn scenario<'t>(text: &'t [u8], layout: &mut [u32]) -> Result<Text<'t>, Fault>
    ensures answer { read_as result ≡ scenario_of layout.old text.now }
    ensures table { layout.new ≡ table_after layout.old (scenario_of layout.old text.now) }
{
    if layout.len() != REFERENCES {
        return Err(Fault::from(LayoutFault::BadTable));
    }
    unplace(layout);
    let read = read(text, NOTHING_PLACED, Section::Scenario)?;
    layout.copy_from_slice(&read.placements);
    Ok(read)
}

/// Reads a placement, and a schedule under it.
pub fn single<'t>(placement: &[u8], schedule: &'t [u8]) -> Result<Text<'t>, FileFault>
    ensures { read_as result ≡ single_of placement.now schedule.now }
{
    let placed = read(placement, NOTHING_PLACED, Section::Placement).map_err(|fault| FileFault {
        file: File::Placement,
        fault,
    })?;
    read(schedule, placed.placements, Section::Schedule).map_err(|fault| FileFault {
        file: File::Schedule,
        fault,
    })
}
