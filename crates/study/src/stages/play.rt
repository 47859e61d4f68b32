//! Schedules: calls after one another.
ghost use Rattle.std.specs.Prelude.{◌≡◌, IfErr, OnOk};
ghost use Rattle.protocol.specs.Weighing.{prices_of};
ghost use Rattle.study.specs.Step.{step};
ghost use Rattle.study.specs.Opening.{opening};
ghost use Rattle.study.specs.Play.{played_of, played, history, calls_of};
ghost use Rattle.study.specs.Settling.{simulated, recorded};
ghost use Rattle.study.specs.Stages.{run_of, ended_as};
ghost use Rattle.study.specs.Warrant.{Warranted};

use crate::stages::{Draft, RefusedDraft, Run, Settled};
use crate::turn::{Played, Turn};
use memory::Memory;
use protocol::call::Call;
use row::Row;

impl<R: Row, M: Memory> Run<R, M> {
    /// One step: its answer, and the total after it.
    pub fn take_turn(&mut self, call: Call) -> Played
        ensures run { run_of R.cores M.meaning self.new ≡ (step (run_of R.cores M.meaning self.old) call).run }
        ensures played { result ≡ played_of (run_of R.cores M.meaning self.old) call }
    {
        let answer = self.step(call);
        let total = self.counts.total();
        Played { answer, total }
    }

    /// Makes the calls in order, and notes with each its answer and the total after it.
    pub fn play(&mut self, schedule: &mut [Turn])
        ensures run { run_of R.cores M.meaning self.new ≡ played (run_of R.cores M.meaning self.old) (calls_of schedule.old) }
        ensures turns { schedule.new ≡ history (run_of R.cores M.meaning self.old) (calls_of schedule.old) }
    {
        for turn in schedule {
            turn.played = Some(self.take_turn(turn.call));
        }
    }
}

impl<R: Row, M: Memory> Draft<R, M> {
    /// Opens the study, plays a schedule of any length and settles. If the opening is refused, the draft comes back whole and
    /// nothing is touched. Else, for this schedule and for every other: piles are tiers, each answer tells what is so, cores and
    /// memory are coherent at every step, every read delivered is honest, and the counts are those of the answers.
    pub fn simulate(self, schedule: &mut [Turn]) -> Result<Settled<R, M>, RefusedDraft<R, M>>
        ensures ending { ended_as R.cores M.meaning result ≡ simulated (opening (R.cores self.row) (M.meaning self.memory) (prices_of self.weights)) (calls_of schedule.old) }
        ensures turns { schedule.new ≡ recorded (opening (R.cores self.row) (M.meaning self.memory) (prices_of self.weights)) schedule.old }
        ensures back { IfErr result (λ e. e.draft ≡ self) }
        ensures warrant { OnOk result (Warranted (R.cores self.row) (M.meaning self.memory) (prices_of self.weights)) }
    {
        let mut run = self.open()?;
        run.play(schedule);
        Ok(run.settle())
    }
}
