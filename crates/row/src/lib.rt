//! Rows of cores, each with caches of its own.
#![tactic(auto)]

ghost use Rattle.std.specs.Prelude.{◌≡◌, List};
ghost use Rattle.tier.specs.Meaning.{look_of};
ghost use Rattle.row.specs.Cores.{CoreMeaning, count_of, tier_at, state_at, turned, operated_out, done, invalidated, met, awaited, renewed, AllLawful};

use crate::message::Message;
use crate::operation::Operation;
use parts::line::Line;
use protocol::access::CoreState;

pub mod message;
pub mod one_core;
pub mod operation;

/// The most cores that are addressed.
pub const MOST_CORES: u16 = 8;

/// Cores side by side, numbered from 0. Cores after the eighth are never addressed: to every call that names a core they are
/// not there, and no message reaches them.
pub trait Row {
    /// The cores, first to last.
    ghost cores: { Self → List CoreMeaning };

    /// How many cores there are; more than eight count as nine.
    fn count(&self) -> u16
        ensures { result ≡ count_of (cores self.now) };

    /// The state of a core; one that is not there is ready.
    fn state(&self, core: u16) -> CoreState
        ensures { result ≡ state_at (cores self.now) core };

    /// Puts a core into another state.
    fn turn(&mut self, core: u16, state: CoreState)
        ensures { cores self.new ≡ turned (cores self.old) core state };

    /// What a core's tier shows of a block: mark, stamp and level.
    fn look(&self, core: u16, block: u16) -> Option<(u32, u32, u32)>
        ensures { result ≡ look_of (tier_at (cores self.now) core) block };

    /// An operation of a core's tier, and the line that leaves the tier.
    fn operate(&mut self, core: u16, operation: Operation) -> Option<Line>
        ensures answer { result ≡ operated_out (tier_at (cores self.old) core) operation }
        ensures next { cores self.new ≡ done (cores self.old) core operation };

    /// A message that makes every core but the sender drop a block. The answer is the stamp of the last modified copy that it
    /// met. `first` is the number of this row's first core.
    fn invalidate(&mut self, first: u16, message: Message) -> Option<u32>
        ensures answer { result ≡ met first message.sender message.block (cores self.old) }
        ensures next { cores self.new ≡ invalidated first message.sender message.block (cores self.old) };

    /// Whether a core other than the sender waits for a block. `first` is the number of this row's first core.
    fn awaited(&self, first: u16, message: Message) -> bool
        ensures { result ≡ awaited first message.sender message.block (cores self.now) };

    /// Clears every tier and makes every core ready.
    fn renew(&mut self)
        ensures { cores self.new ≡ renewed (cores self.old) };

    /// What each row proves: its tiers keep the laws.
    ghost lawful: { (r : Self) → AllLawful (cores r) };
}
