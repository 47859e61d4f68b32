//! A text that was read.
ghost use Rattle.std.specs.Prelude.{◌≡◌, ◌≤◌, length};

use crate::layout::REFERENCES;
use crate::steps::Steps;
use protocol::weights::Prices;

/// A text that was read: its weights, its placements, and its steps, which stay in its bytes. Its steps can be taken under no
/// other placements than its own.
#[derive(Drop)]
pub struct Text<'t> {
    pub(crate) prices: Prices,
    // the block of each reference, or 65,536
    pub(crate) placements: [u32; REFERENCES],
    // the bytes from the first step on
    pub(crate) rest: &'t [u8],
    ghost few: { length rest.now ≤ 65536 },
}

impl Text<'_> {
    ghost use Rattle.scenario.specs.Steps.{calls_in};
    ghost use Rattle.scenario.specs.Reading.{read_in};

    /// Its weights, which may be too high for a study.
    pub fn prices(&self) -> Prices
        ensures { result ≡ (read_in self.now).prices }
    {
        self.prices
    }

    /// All its steps.
    pub fn steps(&self) -> Steps<'_>
        ensures { calls_in result ≡ (read_in self.now).calls }
    {
        Steps::at(self.rest, &self.placements)
    }
}
