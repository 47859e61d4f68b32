//! A row of one core.
ghost use Rattle.std.specs.Prelude.{◌≡◌, [], ◌∷◌};
ghost use Rattle.protocol.specs.declared.access.CoreState.TheVariants.{Ready};
ghost use Rattle.row.specs.Cores.{core, operated, operated_out, awaits};

use crate::Row;
use crate::message::Message;
use crate::operation::Operation;
use moves::{bring_up, drop_block, put_block};
use parts::line::Line;
use protocol::access::CoreState;
use tier::Tier;

/// A core with its caches.
#[derive(Drop)]
pub struct Core<T> {
    tier: T,
    state: CoreState,
}

impl<T: Tier> Core<T> {
    /// A ready core over a tier.
    pub fn new(tier: T) -> Core<T>
        ensures { (result.tier ≡ tier) × (result.state ≡ Ready) }
    {
        Core {
            tier,
            state: CoreState::Ready,
        }
    }
}

#[inline(always)]
fn apply<T: Tier>(tier: &mut T, operation: Operation) -> Option<Line>
    ensures answer { result ≡ operated_out (T.Tier.meaning tier.old) operation }
    ensures next { T.Tier.meaning tier.new ≡ operated (T.Tier.meaning tier.old) operation }
{
    match operation {
        Operation::BringUp(block, held) => bring_up(tier, block, held),
        Operation::Put(line) => put_block(tier, line),
        Operation::Change(line) => {
            let _ = tier.change(line);
            None
        }
    }
}

#[inline(always)]
fn waits_for(state: CoreState, block: u16) -> bool
    ensures { result ≡ awaits block state }
{
    match state {
        CoreState::Waiting(access) => access.block() == block,
        CoreState::Ready | CoreState::Due(_) => false,
    }
}

// Of a row of one core, core 0 is this one, and no other is there.
impl<T: Tier> Row for Core<T> {
    ghost cores = { λ c. core (T.Tier.meaning c.tier) c.state ∷ [] };

    ghost lawful = { λ r. (T.Tier.lawful r.tier, tt) };

    #[inline(always)]
    fn count(&self) -> u16 {
        1
    }

    #[inline(always)]
    #[tactic(auto, using(crate::proofs::Single::of_one), unfolding(crate::specs::Cores::absent))]
    fn state(&self, core: u16) -> CoreState {
        if core == 0 {
            self.state
        } else {
            CoreState::Ready
        }
    }

    #[inline(always)]
    #[tactic(auto, using(crate::proofs::Single::of_one), unfolding(crate::specs::Cores::absent))]
    fn turn(&mut self, core: u16, state: CoreState) {
        if core == 0 {
            self.state = state;
        }
    }

    #[inline(always)]
    #[tactic(auto, using(crate::proofs::Single::of_one), unfolding(crate::specs::Cores::absent))]
    fn look(&self, core: u16, block: u16) -> Option<(u32, u32, u32)> {
        if core == 0 {
            self.tier.look(block)
        } else {
            None
        }
    }

    #[inline(always)]
    #[tactic(auto, using(crate::proofs::Single::of_one), unfolding(crate::specs::Cores::absent))]
    fn operate(&mut self, core: u16, operation: Operation) -> Option<Line> {
        if core == 0 {
            apply(&mut self.tier, operation)
        } else {
            None
        }
    }

    #[tactic(auto, unfolding(crate::specs::Cores::invalidated, crate::specs::Cores::met))]
    fn invalidate(&mut self, first: u16, message: Message) -> Option<u32> {
        if message.reaches(first) {
            drop_block(&mut self.tier, message.block)
        } else {
            None
        }
    }

    #[tactic(auto, unfolding(crate::specs::Cores::awaited))]
    fn awaited(&self, first: u16, message: Message) -> bool {
        message.reaches(first) && waits_for(self.state, message.block)
    }

    #[tactic(auto, unfolding(crate::specs::Cores::renewed))]
    fn renew(&mut self) {
        self.tier.clear();
        self.state = CoreState::Ready;
    }
}
