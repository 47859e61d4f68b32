//! Main memory: numbered blocks, each valid with a stamp, or stale.
#![tactic(auto)]

ghost use Rattle.std.specs.Prelude.{◌≡◌};
ghost use Rattle.device.specs.Device.{after};
ghost use Rattle.memory.specs.Meaning.{MemoryMeaning, store, stale, size_of, asked, granted, Lawful};

use crate::refusal::Refusal;

pub mod cell;
pub mod flat;
pub mod refusal;

pub trait Memory {
    /// What the memory shows after any list of calls.
    ghost meaning: { Self → MemoryMeaning };

    /// How many blocks there are, at most 65,536.
    fn size(&self) -> u32
        ensures { result ≡ size_of (meaning self.now) };

    /// The stamp of a valid block, or `None` of a stale one.
    fn ask(&self, block: u16) -> Result<Option<u32>, Refusal>
        ensures { result ≡ asked (meaning self.now) block };

    /// Makes a block valid with a stamp.
    fn store(&mut self, block: u16, stamp: u32) -> Result<(), Refusal>
        ensures answer { result ≡ granted (meaning self.old) block }
        ensures next { meaning self.new ≡ after (meaning self.old) (store block stamp) };

    /// Makes a block stale.
    fn stale(&mut self, block: u16) -> Result<(), Refusal>
        ensures answer { result ≡ granted (meaning self.old) block }
        ensures next { meaning self.new ≡ after (meaning self.old) (stale block) };

    /// What each kind proves: the laws of a memory, now and after any list of calls.
    ghost lawful: { (m : Self) → Lawful (meaning m) };
}
