//! A tier is what one core holds of main memory, in one cache level or several.
#![tactic(auto)]

ghost use Rattle.std.specs.Prelude.{◌≡◌};
ghost use Rattle.device.specs.Device.{after};
ghost use Rattle.tier.specs.Meaning.{TierMeaning, Lawful, put, take, change, touch, clear, depth_of, look_of, put_answer, held_answer};

use parts::line::Line;
use parts::refusal::Refusal;

pub mod pile;

pub trait Tier {
    /// What the tier shows after any list of calls.
    ghost meaning: { Self → TierMeaning };

    /// How many levels there are, 1 to 4.
    fn depth(&self) -> u32
        ensures { result ≡ depth_of (meaning self.now) };

    /// The mark (shared 0, modified 1), the stamp and the level of a held block.
    // Plain numbers of one width: bringing up takes them apart, and no padding is copied with them.
    fn look(&self, block: u16) -> Option<(u32, u32, u32)>
        ensures { result ≡ look_of (meaning self.now) block };

    /// Holds the line's block at level 1. The block that leaves to make room is given out.
    fn put(&mut self, line: Line) -> Result<Option<Line>, Refusal>
        ensures answer { result ≡ put_answer (meaning self.old) line.block line.mark line.stamp }
        ensures next { meaning self.new ≡ after (meaning self.old) (put line.block line.mark line.stamp) };

    /// Frees a block, and answers as `look` did.
    fn take(&mut self, block: u16) -> Option<(u32, u32, u32)>
        ensures answer { result ≡ look_of (meaning self.old) block }
        ensures next { meaning self.new ≡ after (meaning self.old) (take block) };

    /// Gives a held block the line's mark and stamp, at the level where it is.
    fn change(&mut self, line: Line) -> Result<(), Refusal>
        ensures answer { result ≡ held_answer (meaning self.old) line.block }
        ensures next { meaning self.new ≡ after (meaning self.old) (change line.block line.mark line.stamp) };

    /// Tells that a held block was used.
    fn touch(&mut self, block: u16) -> Result<(), Refusal>
        ensures answer { result ≡ held_answer (meaning self.old) block }
        ensures next { meaning self.new ≡ after (meaning self.old) (touch block) };

    /// Frees every block.
    fn clear(&mut self)
        ensures { meaning self.new ≡ after (meaning self.old) clear };

    /// What each kind proves: the laws of a tier, now and after any list of calls.
    ghost lawful: { (t : Self) → Lawful (meaning t) };
}
