//! What a run is asked, which alters nothing.
ghost use Rattle.std.specs.Prelude.{◌≡◌};
ghost use Rattle.row.specs.Cores.{state_at};
ghost use Rattle.study.specs.Step.{fetchable_in, fetchable, owed};
ghost use Rattle.study.specs.Foretold.{FetchForetold, FlushForetold};
ghost use Rattle.study.specs.Stages.{run_of};

use crate::stages::Run;
use crate::transfers::valid;
use memory::Memory;
use moves::modified_stamp;
use protocol::access::CoreState;
use row::Row;
use row::message::Message;

impl<R: Row, M: Memory> Run<R, M> {
    /// The state of a core; one that is not there is ready.
    #[inline(always)]
    pub fn state(&self, core: u16) -> CoreState
        ensures { result ≡ state_at (R.cores self.now.row) core }
    {
        self.row.state(core)
    }

    /// Whether a core can fetch now: the stamp that it would get, which memory has for the block that the core waits for. None if
    /// the core does not wait, or if the block is stale in memory.
    #[tactic(auto, using(crate::proofs::Foretelling::fetch_foretold))]
    pub fn fetchable(&self, core: u16) -> Option<u32>
        ensures stamp { result ≡ fetchable (run_of R.cores M.meaning self.now) core }
        ensures law { FetchForetold (run_of R.cores M.meaning self.now) core }
    {
        self.fetchable_in(self.state(core))
    }

    // The same of a core in this state: what a step asks, which knows the state.
    #[inline(always)]
    pub(crate) fn fetchable_in(&self, state: CoreState) -> Option<u32>
        ensures { result ≡ fetchable_in (M.meaning self.now.memory) state }
    {
        match state {
            CoreState::Waiting(access) => valid(&self.memory, access.block()),
            CoreState::Ready | CoreState::Due(_) => None,
        }
    }

    /// Whether a core owes a flush of a block now: the stamp that memory would get, that of the modified copy that the core holds.
    /// None if the core does not hold the block modified, or if no other core waits for it.
    #[inline(always)]
    #[tactic(auto, using(crate::proofs::Foretelling::flush_foretold))]
    pub fn owed(&self, core: u16, block: u16) -> Option<u32>
        ensures stamp { result ≡ owed (run_of R.cores M.meaning self.now) core block }
        ensures law { FlushForetold (run_of R.cores M.meaning self.now) core block }
    {
        let stamp = modified_stamp(self.row.look(core, block))?;
        let message = Message {
            sender: core,
            block,
        };
        self.row.awaited(0, message).then_some(stamp)
    }
}
