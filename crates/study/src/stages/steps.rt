//! The steps of a run.
ghost use Rattle.std.specs.Prelude.{◌≡◌, ◌<◌, Ok};
ghost use Rattle.protocol.specs.Weighing.{prices_of};
ghost use Rattle.protocol.specs.Calls.{core_of};
ghost use Rattle.row.specs.Cores.{state_at};
ghost use Rattle.study.specs.Run.{tallied, most_steps};
ghost use Rattle.study.specs.Step.{charged, waiting, reading, writing, access, fetching, fetch, cleaning, flush, commit, act, step};
ghost use Rattle.study.specs.Stages.{run_of};
ghost use Rattle.study.specs.Effects.{Does};

use crate::counts::MOST_STEPS;
use crate::effect::{Effect, Performed};
use crate::stages::Run;
use crate::transfers::{claim, leave, store};
use memory::Memory;
use moves::modified_stamp;
use parts::line::Line;
use parts::mark::Mark;
use protocol::access::{Access, CoreState};
use protocol::answer::Answer;
use protocol::call::Call;
use protocol::refusal::Refusal;
use protocol::weights::Movement;
use row::Row;
use row::message::Message;
use row::operation::Operation;

// A core and a block stand apart, as in `Call::Read(0, 3)`: a struct of the two would be made at each line of a schedule.
impl<R: Row, M: Memory> Run<R, M> {
    // The core cannot make the access yet.
    #[inline(always)]
    fn wait(&mut self, core: u16, wanted: Access) -> Effect
        ensures { Does R.cores M.meaning self.old self.new (Ok result) (waiting (run_of R.cores M.meaning self.old) core wanted) }
    {
        self.row.turn(core, CoreState::Waiting(wanted));
        Effect {
            performed: Performed::Nothing,
            moved: Movement::Still,
            left: Movement::Still,
            answer: Answer::Waits(wanted.block()),
        }
    }

    // A core reads a block that it holds so.
    #[inline(always)]
    fn read_held(&mut self, core: u16, block: u16, held: (u32, u32, u32)) -> Effect
        ensures { Does R.cores M.meaning self.old self.new (Ok result) (reading (run_of R.cores M.meaning self.old) core block held) }
    {
        let (_, stamp, level) = held;
        let out = self.row.operate(core, Operation::BringUp(block, held));
        self.row.turn(core, CoreState::Ready);
        let left = leave(&mut self.memory, out);
        Effect {
            performed: Performed::Read,
            moved: Movement::FromLevel(level),
            left,
            answer: Answer::Read(stamp),
        }
    }

    // A core writes a block that it holds so.
    fn write_held(&mut self, core: u16, block: u16, held: (u32, u32, u32)) -> Effect
        ensures { Does R.cores M.meaning self.old self.new (Ok result) (writing (run_of R.cores M.meaning self.old) core block held) }
    {
        let (mark, _, level) = held;
        let out = self.row.operate(core, Operation::BringUp(block, held));
        self.row.turn(core, CoreState::Ready);
        let left = leave(&mut self.memory, out);
        let message = Message {
            sender: core,
            block,
        };
        let modified = mark == u32::from(Mark::Modified);
        claim(&mut self.row, &mut self.memory, message, modified);
        let line = Line {
            block,
            mark: Mark::Modified,
            stamp: self.counts.writes() + 1,
        };
        let _ = self.row.operate(core, Operation::Change(line));
        Effect {
            performed: Performed::Write,
            moved: Movement::FromLevel(level),
            left,
            answer: Answer::Wrote(line.stamp),
        }
    }

    // An access as a ready core makes it.
    #[inline(always)]
    fn perform(&mut self, core: u16, wanted: Access) -> Effect
        ensures { Does R.cores M.meaning self.old self.new (Ok result) (access (run_of R.cores M.meaning self.old) core wanted) }
    {
        match (wanted, self.row.look(core, wanted.block())) {
            (Access::Read(block), Some(held)) => self.read_held(core, block, held),
            (Access::Write(block), Some(held)) => self.write_held(core, block, held),
            (_, None) => self.wait(core, wanted),
        }
    }

    // The block that a core waits for, valid in memory with this stamp, comes to it.
    #[inline(always)]
    fn bring(&mut self, core: u16, access: Access, stamp: u32) -> Effect
        ensures { Does R.cores M.meaning self.old self.new (Ok result) (fetching (run_of R.cores M.meaning self.old) core access stamp) }
    {
        let line = Line {
            block: access.block(),
            mark: Mark::Shared,
            stamp,
        };
        let out = self.row.operate(core, Operation::Put(line));
        self.row.turn(core, CoreState::Due(access));
        let left = leave(&mut self.memory, out);
        Effect {
            performed: Performed::Nothing,
            moved: Movement::Memory,
            left,
            answer: Answer::Brought(line.block),
        }
    }

    #[inline(always)]
    fn fetch(&mut self, core: u16, access: Access) -> Result<Effect, Refusal>
        ensures { Does R.cores M.meaning self.old self.new result (fetch (run_of R.cores M.meaning self.old) core access) }
    {
        let stamp = self
            .fetchable_in(CoreState::Waiting(access))
            .ok_or(Refusal::StaleBlock)?;
        Ok(self.bring(core, access, stamp))
    }

    // Main memory takes a copy that a core holds modified with this stamp, and the copy is shared.
    #[inline(always)]
    fn clean(&mut self, core: u16, block: u16, stamp: u32, answer: Answer) -> Effect
        ensures { Does R.cores M.meaning self.old self.new (Ok result) (cleaning (run_of R.cores M.meaning self.old) core block stamp answer) }
    {
        let line = Line {
            block,
            mark: Mark::Shared,
            stamp,
        };
        let _ = self.row.operate(core, Operation::Change(line));
        store(&mut self.memory, block, stamp);
        Effect {
            performed: Performed::Nothing,
            moved: Movement::Memory,
            left: Movement::Still,
            answer,
        }
    }

    #[inline(always)]
    fn flush(&mut self, core: u16, block: u16) -> Result<Effect, Refusal>
        ensures { Does R.cores M.meaning self.old self.new result (flush (run_of R.cores M.meaning self.old) core block) }
    {
        let stamp = self.owed(core, block).ok_or(Refusal::NotOwed)?;
        Ok(self.clean(core, block, stamp, Answer::Flushed(block)))
    }

    #[inline(always)]
    fn commit(&mut self, core: u16, block: u16) -> Effect
        ensures { Does R.cores M.meaning self.old self.new (Ok result) (commit (run_of R.cores M.meaning self.old) core block) }
    {
        match modified_stamp(self.row.look(core, block)) {
            Some(stamp) => self.clean(core, block, stamp, Answer::Committed(true)),
            None => Effect {
                performed: Performed::Nothing,
                moved: Movement::Still,
                left: Movement::Still,
                answer: Answer::Committed(false),
            },
        }
    }

    // What a call does depends on the state of its core.
    fn act(&mut self, call: Call) -> Result<Effect, Refusal>
        ensures { Does R.cores M.meaning self.old self.new result (act (run_of R.cores M.meaning self.old) call (state_at (R.cores self.old.row) (core_of call))) }
    {
        match (call, self.state(call.core())) {
            (Call::Read(core, block), CoreState::Ready) => Ok(self.perform(
                core,
                Access::Read(block),
            )),
            (Call::Write(core, block), CoreState::Ready) => Ok(self.perform(
                core,
                Access::Write(block),
            )),
            (Call::Fetch(core), CoreState::Waiting(access)) => self.fetch(core, access),
            (Call::Resume(core), CoreState::Due(access)) => Ok(self.perform(core, access)),
            (Call::Flush(core, block), _) => self.flush(core, block),
            (Call::Commit(core, block), CoreState::Ready) => Ok(self.commit(core, block)),
            _ => Err(Refusal::WrongState),
        }
    }

    // Counts an accepted step and charges its two movements. Every charge of a run is made here.
    #[inline(always)]
    fn charge(&mut self, effect: Effect)
        requires { self.old.counts.steps < most_steps }
        ensures { self.new ≡ record self.old { counts = tallied self.old.counts effect.performed (charged (prices_of self.old.weights) effect.moved effect.left) } }
    {
        let moved = self.weights.price(effect.moved);
        let left = self.weights.price(effect.left);
        self.counts
            .accept(effect.performed, u32::from(moved) + u32::from(left));
    }

    /// One step: the questions that are put to every call, and then the call. A refused one alters nothing.
    #[tactic(auto, unfolding(crate::specs::Step::step))]
    pub fn step(&mut self, call: Call) -> Result<Answer, Refusal>
        ensures run { run_of R.cores M.meaning self.new ≡ (step (run_of R.cores M.meaning self.old) call).run }
        ensures answer { result ≡ (step (run_of R.cores M.meaning self.old) call).answer }
    {
        if self.counts.steps() >= MOST_STEPS {
            return Err(Refusal::TooManySteps);
        }
        if call.core() >= self.row.count() {
            return Err(Refusal::NoSuchCore);
        }
        if !call.fits_in(self.memory.size()) {
            return Err(Refusal::NoSuchBlock);
        }
        let effect = self.act(call)?;
        self.charge(effect);
        Ok(effect.answer)
    }
}
