//! Two rows side by side.
#![tactic(auto)]

ghost use Rattle.std.specs.Prelude.{◌≡◌, ◌+◌, ◌++◌, min};
ghost use Rattle.row.specs.Cores.{count_of};
ghost use Rattle.pair.specs.Places.{lawful_both};

use parts::line::Line;
use protocol::access::CoreState;
use row::message::Message;
use row::operation::Operation;
use row::{MOST_CORES, Row};

/// The cores of two rows, the first row's first.
#[derive(Drop)]
pub struct Pair<R, S> {
    first: R,
    second: S,
}

impl<R: Row, S: Row> Pair<R, S> {
    /// Two rows as one.
    pub fn new(first: R, second: S) -> Pair<R, S>
        ensures { (result.first ≡ first) × (result.second ≡ second) }
    {
        Pair { first, second }
    }
}

impl<R: Row, S: Row> Pair<R, S> {
    // The number of the second row's first core. It stops at the largest number, which no message reaches.
    fn number_after(&self, first: u16) -> u16
        ensures { result ≡ min 65535 (first + count_of (R.Row.cores self.now.first)) }
    {
        first.saturating_add(self.first.count())
    }
}

// Each call that names a core tells for itself which row has it: the rows are of different types, and no closure takes either.
impl<R: Row, S: Row> Row for Pair<R, S> {
    ghost cores = { λ p. R.Row.cores p.first ++ S.Row.cores p.second };

    ghost lawful = { λ r. lawful_both _ _ (R.Row.lawful r.first) (S.Row.lawful r.second) };

    #[inline(always)]
    fn count(&self) -> u16 {
        (self.first.count() + self.second.count()).min(MOST_CORES + 1)
    }

    #[inline(always)]
    #[tactic(auto, using(crate::proofs::Seated::by_seat), unfolding(row::specs::Cores::absent))]
    fn state(&self, core: u16) -> CoreState {
        let before = self.first.count();
        if core >= MOST_CORES {
            CoreState::Ready
        } else if core < before {
            self.first.state(core)
        } else {
            self.second.state(core - before)
        }
    }

    #[inline(always)]
    #[tactic(auto, using(crate::proofs::Seated::by_seat), unfolding(row::specs::Cores::absent))]
    fn turn(&mut self, core: u16, state: CoreState) {
        let before = self.first.count();
        if core >= MOST_CORES {
            return;
        }
        if core < before {
            self.first.turn(core, state);
        } else {
            self.second.turn(core - before, state);
        }
    }

    #[inline(always)]
    #[tactic(auto, using(crate::proofs::Seated::by_seat), unfolding(row::specs::Cores::absent))]
    fn look(&self, core: u16, block: u16) -> Option<(u32, u32, u32)> {
        let before = self.first.count();
        if core >= MOST_CORES {
            None
        } else if core < before {
            self.first.look(core, block)
        } else {
            self.second.look(core - before, block)
        }
    }

    #[inline(always)]
    #[tactic(auto, using(crate::proofs::Seated::by_seat), unfolding(row::specs::Cores::absent))]
    fn operate(&mut self, core: u16, operation: Operation) -> Option<Line> {
        let before = self.first.count();
        if core >= MOST_CORES {
            None
        } else if core < before {
            self.first.operate(core, operation)
        } else {
            self.second.operate(core - before, operation)
        }
    }

    #[tactic(auto, using(crate::proofs::Messages::by_row))]
    fn invalidate(&mut self, first: u16, message: Message) -> Option<u32> {
        let second = self.number_after(first);
        let earlier = self.first.invalidate(first, message);
        let later = self.second.invalidate(second, message);
        later.or(earlier)
    }

    #[tactic(auto, using(crate::proofs::Messages::by_row))]
    fn awaited(&self, first: u16, message: Message) -> bool {
        let second = self.number_after(first);
        self.first.awaited(first, message) || self.second.awaited(second, message)
    }

    #[tactic(auto, using(crate::proofs::Messages::by_row))]
    fn renew(&mut self) {
        self.first.renew();
        self.second.renew();
    }
}
