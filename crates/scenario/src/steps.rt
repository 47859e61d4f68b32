//! The steps of a text.
ghost use Rattle.std.specs.Prelude.{◌≤◌, length};

mod first;

use crate::layout::REFERENCES;

/// Where the steps of a text that was read begin, or go on, and the text's placements.
#[derive(Clone, Copy)]
pub struct Steps<'t> {
    rest: &'t [u8],
    placements: &'t [u32; REFERENCES],
    // the steps of one text
    ghost few: { length rest.now ≤ 65536 },
}
