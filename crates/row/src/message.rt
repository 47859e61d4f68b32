//! What a core tells all others.
ghost use Rattle.std.specs.Prelude.{◌≡◌};
ghost use Rattle.row.specs.Cores.{reaches};

use crate::MOST_CORES;

/// A message about a block, from one core to every other.
#[derive(Clone, Copy, PartialEq, Eq, Debug)]
pub struct Message {
    pub sender: u16,
    pub block: u16,
}

impl Message {
    /// Whether the message reaches a core: another than the sender, and none after the eighth.
    pub fn reaches(self, core: u16) -> bool
        ensures { result ≡ reaches self.sender core }
    {
        core != self.sender && core < MOST_CORES
    }
}
