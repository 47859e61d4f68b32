//! A stretch of another memory.
#![tactic(auto)]

ghost use Rattle.std.specs.Prelude.{◌≡◌, ◌+◌, if◌then◌else◌, Ok, Err, nat_lt};
ghost use Rattle.memory.specs.declared.refusal.Refusal.TheVariants.{NoSuchBlock};
ghost use Rattle.window.specs.Window.{window_size, window};
ghost use Rattle.window.specs.WindowLaws.{window-lawful};

use memory::Memory;
use memory::refusal::Refusal;

/// Block n is block `start` + n of `below`.
#[derive(Drop)]
pub struct Window<M> {
    below: M,
    start: u32,
    length: u32,
}

impl<M: Memory> Window<M> {
    /// The `length` blocks of `below` from `start` on, or as many of them as there are.
    pub fn new(below: M, start: u32, length: u32) -> Window<M>
        ensures { (result.below ≡ below) × (result.start ≡ start) × (result.length ≡ length) }
    {
        Self {
            below,
            start,
            length,
        }
    }

    /// The memory below, as it now is.
    pub fn into_below(self) -> M
        ensures { result ≡ self.below }
    {
        let Window { below, .. } = self;
        below
    }

    /// The block below that a block of the window is.
    fn block_below(&self, block: u16) -> Result<u16, Refusal>
        ensures { result ≡ (if nat_lt block (window_size self.now.start self.now.length (M.Memory.meaning self.now.below)) then Ok (self.now.start + block) else Err NoSuchBlock) }
    {
        if u32::from(block) < self.size() {
            // `as` loses nothing: proved
            Ok((self.start + u32::from(block)) as u16)
        } else {
            Err(Refusal::NoSuchBlock)
        }
    }
}

impl<M: Memory> Memory for Window<M> {
    ghost meaning = { λ w. window w.start w.length (M.Memory.meaning w.below) };

    ghost lawful = { λ w. window-lawful w.start w.length (M.Memory.meaning w.below) (M.Memory.lawful w.below) };

    fn size(&self) -> u32 {
        self.below
            .size()
            .saturating_sub(self.start)
            .min(self.length)
    }

    fn ask(&self, block: u16) -> Result<Option<u32>, Refusal> {
        self.below.ask(self.block_below(block)?)
    }

    fn store(&mut self, block: u16, stamp: u32) -> Result<(), Refusal> {
        // a name of its own, since the check takes no use of `self` among the arguments of a call that writes `self.below`
        let found = self.block_below(block)?;
        self.below.store(found, stamp)
    }

    fn stale(&mut self, block: u16) -> Result<(), Refusal> {
        let found = self.block_below(block)?;
        self.below.stale(found)
    }
}
