//! The steps of a scenario, played and told one after another.
ghost use Rattle.std.specs.Prelude.{◌≡◌, OnOk};
ghost use Rattle.std.specs.Io.KnownBytes.{Appends};
ghost use Rattle.study.specs.Play.{played, history};
ghost use Rattle.study.specs.Stages.{run_of};
ghost use Rattle.scenario.specs.Steps.{calls_in};
ghost use Rattle.report.specs.Lines.{text_of};
ghost use Rattle.report.specs.Reading.{ReadBack};
ghost use Rattle.simulator.specs.Report.{turn_lines};

use crate::output::write;
use crate::telling::Telling;
use memory::Memory;
use row::Row;
use scenario::steps::Steps;
use std::io;
use std::io::Write;
use study::stages::Run;

// Plays the steps, and writes a line for each. All are played, whether or not they can be written.
pub(crate) fn play<R: Row, M: Memory, W: Write, T: Telling>(
    telling: &T,
    run: &mut Run<R, M>,
    steps: Steps<'_>,
    out: &mut W,
) -> io::Result<()>
    ensures run { run_of R.cores M.meaning run.new ≡ played (run_of R.cores M.meaning run.old) (calls_in steps.entry) }
    ensures lines { OnOk result (Appends (W.contents out.old) (W.contents out.new) (text_of (turn_lines (T.form telling.now) 1 (history (run_of R.cores M.meaning run.old) (calls_in steps.entry))))) }
    ensures reads_back { ReadBack (turn_lines (T.form telling.now) 1 (history (run_of R.cores M.meaning run.old) (calls_in steps.entry))) }
{
    let mut written = Ok(());
    let mut rest = steps;
    let mut number: u32 = 1;
    while let Some((call, more)) = rest.first() {
        let line = telling.turn(number, &run.take_turn(call));
        written = write(out, written, line);
        rest = more;
        number += 1;
    }
    written
}
