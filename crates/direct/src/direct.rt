//! A tier of lines, in which each block has one line where it may stand.
ghost use Rattle.std.specs.Prelude.{◌≡◌, ◌<◌, ◌≤◌, IfOk, None, slice_index_or, vec_len};
ghost use Rattle.device.specs.Device.{Always};
ghost use Rattle.tier.specs.Building.{Builds};
ghost use Rattle.direct.specs.Lines.{slot, having, direct, empty, asked, Placed};
ghost use Rattle.direct.specs.Mapped.{DirectMapped};

use parts::line::Line;
use parts::place::place_of;
use parts::refusal::{BuildError, Refusal};
use std::alloc::{AllocError, Global};
use tier::Tier;

/// The most lines that a direct tier may have.
pub const MOST_LINES: usize = 64;

#[derive(Drop)]
pub struct Direct {
    lines: Vec<Option<Line>>,
    ghost some: { 1 ≤ vec_len lines },
    ghost placed: { Placed lines.items },
}

impl Direct {
    ghost use Rattle.direct.specs.Direct.{direct_of};

    /// An empty tier of 1 to 64 lines. Block n belongs to line n mod `lines`.
    pub fn new(heap: Global, lines: usize) -> Result<Direct, BuildError<Direct>>
        ensures built { Builds direct_of result (asked lines) }
        ensures law { IfOk result (λ d. Always (DirectMapped lines) (direct_of d)) }
    {
        Direct::sized(heap, lines)
    }

    // The code apart from the law of whole runs, so that an edit of it is refused for its own sake.
    fn sized(heap: Global, lines: usize) -> Result<Direct, BuildError<Direct>>
        ensures { Builds direct_of result (asked lines) }
    {
        let fits = (1..=MOST_LINES).contains(&lines);
        BuildError::answer(fits, Direct::cleared(heap, if fits { lines } else { 1 }))
    }

    fn cleared(heap: Global, lines: usize) -> Result<Direct, AllocError>
        requires { 1 ≤ lines }
        ensures { IfOk result (λ d. direct_of d ≡ direct (empty lines)) }
    {
        let lines = vec![in heap; None; lines]?;
        Ok(Direct { lines })
    }

    // The number of the line of a block.
    #[inline(always)]
    fn slot(&self, block: u16) -> usize
        ensures value { result ≡ slot self.now.lines.items block }
        ensures within { result < vec_len self.now.lines }
    {
        place_of(block, self.lines.len())
    }

    // The line in its slot, if it has the block.
    #[inline(always)]
    fn held(&self, slot: usize, block: u16) -> Option<Line>
        requires { slot < vec_len self.now.lines }
        ensures { result ≡ having (slice_index_or self.now.lines.items slot None) block }
    {
        self.lines[slot].filter(|line| line.block == block)
    }
}

impl Tier for Direct {
    ghost use Rattle.direct.specs.Direct.{direct_of};
    ghost use Rattle.direct.specs.DirectLaws.{direct_of-lawful};

    ghost meaning = { direct_of };

    ghost lawful = { direct_of-lawful };

    fn depth(&self) -> u32 {
        1
    }

    #[inline(always)]
    fn look(&self, block: u16) -> Option<(u32, u32, u32)> {
        self.held(self.slot(block), block).map(Line::shown)
    }

    #[inline(always)]
    fn put(&mut self, line: Line) -> Result<Option<Line>, Refusal> {
        let slot = self.slot(line.block);
        if self.held(slot, line.block).is_some() {
            return Err(Refusal::AlreadyHeld);
        }
        Ok(self.lines[slot].replace(line))
    }

    #[inline(always)]
    fn take(&mut self, block: u16) -> Option<(u32, u32, u32)> {
        let slot = self.slot(block);
        let line = self.held(slot, block)?;
        self.lines[slot] = None;
        Some(line.shown())
    }

    #[inline(always)]
    fn change(&mut self, line: Line) -> Result<(), Refusal> {
        let slot = self.slot(line.block);
        self.held(slot, line.block).ok_or(Refusal::NotHeld)?;
        self.lines[slot] = Some(line);
        Ok(())
    }

    #[inline(always)]
    fn touch(&mut self, block: u16) -> Result<(), Refusal> {
        self.held(self.slot(block), block).ok_or(Refusal::NotHeld)?;
        Ok(())
    }

    fn clear(&mut self) {
        self.lines.fill(None);
    }
}
