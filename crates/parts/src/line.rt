//! What a cache line holds.
ghost use Rattle.std.specs.Prelude.{◌≡◌};
ghost use Rattle.parts.specs.Lines.{shown_of};

use crate::mark::Mark;

/// A block with its mark and stamp, as a line holds it, as a put takes it and as a put gives it out.
#[derive(Clone, Copy, PartialEq, Eq, Debug)]
pub struct Line {
    pub block: u16,
    pub mark: Mark,
    pub stamp: u32,
}

impl Line {
    /// What a tier of one level shows of the line: mark, stamp and level, as plain numbers.
    pub fn shown(self) -> (u32, u32, u32)
        ensures { result ≡ shown_of self }
    {
        (u32::from(self.mark), self.stamp, 1)
    }
}
