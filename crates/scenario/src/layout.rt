//! The layout table: the block of each reference.
ghost use Rattle.std.specs.Prelude.{◌≡◌, length, replicate, slice_get, slice_set};
ghost use Rattle.scenario.specs.Layouts.{free, block_at};

use crate::fault::LayoutFault;
use records::fault::Place;

/// How many references there are.
pub const REFERENCES: usize = 256;

/// The entry of a reference that is not placed.
pub const UNPLACED: u32 = 65_536;

/// Makes every reference unplaced.
pub fn unplace(layout: &mut [u32])
    ensures { layout.new ≡ replicate (length layout.old) 65536 }
{
    layout.fill(UNPLACED);
}

// Whether the reference, which is named at this place, may be placed.
pub(crate) fn free(layout: &[u32], reference: u16, at: Place) -> Result<(), LayoutFault>
    ensures { result ≡ free at (slice_get layout.now reference) }
{
    match layout.get(usize::from(reference)) {
        Some(&UNPLACED) => Ok(()),
        _ => Err(LayoutFault::Taken(at)),
    }
}

// The block of the reference, which is named at this place.
pub(crate) fn block_at(layout: &[u32], reference: u16, at: Place) -> Result<u16, LayoutFault>
    ensures { result ≡ block_at at (slice_get layout.now reference) }
{
    layout
        .get(usize::from(reference))
        .and_then(|entry| u16::try_from(*entry).ok())
        .ok_or(LayoutFault::Unplaced(at))
}

// Places a reference.
pub(crate) fn lay(layout: &mut [u32], reference: u16, block: u16)
    ensures { layout.new ≡ slice_set layout.old reference block }
{
    let at = usize::from(reference);
    if at < layout.len() {
        layout[at] = u32::from(block);
    }
}
