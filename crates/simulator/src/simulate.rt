//! The whole way, from the bytes of a scenario to those of its report.
ghost use Rattle.std.specs.Prelude.{◌≡◌, OnOk, Ok};
ghost use Rattle.std.specs.Io.KnownBytes.{Appends};
ghost use Rattle.scenario.specs.Reading.{read_in};
ghost use Rattle.scenario.specs.Texts.{scenario_of};
ghost use Rattle.report.specs.Lines.{text_of};
ghost use Rattle.report.specs.Reading.{ReadBack};
ghost use Rattle.round_trip.specs.Exactly.{ReadExactly};
ghost use Rattle.round_trip.specs.FirstFault.{FirstFaultDecides};
ghost use Rattle.simulator.specs.Report.{in_full, report_lines};
ghost use Rattle.simulator.specs.Simulation.{study_of, table_left, IsSimulated};

use crate::begin::begin;
use crate::output::write;
use crate::play::play;
use crate::telling::{InFull, Telling};
use memory::Memory;
use row::Row;
use scenario::fault::Fault;
use scenario::layout::unplace;
use scenario::text::Text;
use scenario::texts::scenario;
use std::io;
use std::io::Write;
use study::quote::Quote;

/// What a study came to: the row and the memory as they are then, and the quote, or the fault for which it was not played.
#[derive(Drop)]
pub struct Simulated<R, M, E> {
    pub row: R,
    pub memory: M,
    pub outcome: Result<Quote, E>,
}

/// Plays the study that a text asks for on this row and this memory, and tells it; beside it, whether that was written. Where
/// the study is refused, row and memory come back as they were.
#[tactic(auto, using(crate::proofs::Playing::study_told, crate::proofs::Playing::study_reads, crate::proofs::Playing::fault_told, crate::proofs::Playing::fault_reads))]
pub fn simulate_text<R: Row, M: Memory, W: Write, T: Telling>(
    telling: &T,
    text: &Text<'_>,
    row: R,
    memory: M,
    report: &mut W,
) -> (Simulated<R, M, Fault>, io::Result<()>)
    ensures study { IsSimulated R.cores M.meaning study_of (Ok (read_in text.now)) row memory result.0 }
    ensures report { OnOk result.1 (Appends (W.contents report.old) (W.contents report.new) (text_of (report_lines (T.form telling.now) (Ok (read_in text.now)) (R.cores row) (M.meaning memory)))) }
    ensures reads_back { ReadBack (report_lines (T.form telling.now) (Ok (read_in text.now)) (R.cores row) (M.meaning memory)) }
{
    let mut run = match begin(text.prices(), row, memory) {
        Ok(run) => run,
        Err(refused) => {
            let study = Simulated {
                row: refused.row,
                memory: refused.memory,
                outcome: Err(refused.fault),
            };
            let line = telling.fault(refused.fault);
            return (study, write(report, Ok(()), Some(line)));
        }
    };
    let written = play(telling, &mut run, text.steps(), report);
    let settled = run.settle();
    let written = write(report, written, Some(telling.quote(&settled.quote)));
    let study = Simulated {
        row: settled.row,
        memory: settled.memory,
        outcome: Ok(settled.quote),
    };
    (study, written)
}

/// Reads a scenario, plays its study on this row and this memory, and writes the report; beside the study, whether that was
/// written. A scenario with a fault leaves the layout unplaced (one of another length as it was), and touches neither row nor
/// memory. All steps are played even where the report cannot be written.
#[tactic(auto, using(crate::proofs::Playing::unread_told, crate::proofs::Playing::unread_reads, round_trip::proofs::Exactly::read_exactly, round_trip::proofs::FirstFaults::decides))]
pub fn simulate<R: Row, M: Memory, W: Write>(
    text: &[u8],
    layout: &mut [u32],
    row: R,
    memory: M,
    report: &mut W,
) -> (Simulated<R, M, Fault>, io::Result<()>)
    ensures study { IsSimulated R.cores M.meaning study_of (scenario_of layout.old text.now) row memory result.0 }
    ensures table { layout.new ≡ table_left (study_of (scenario_of layout.old text.now) (R.cores row) (M.meaning memory)) layout.old (scenario_of layout.old text.now) }
    ensures report { OnOk result.1 (Appends (W.contents report.old) (W.contents report.new) (text_of (report_lines in_full (scenario_of layout.old text.now) (R.cores row) (M.meaning memory)))) }
    ensures reads_back { ReadBack (report_lines in_full (scenario_of layout.old text.now) (R.cores row) (M.meaning memory)) }
    ensures read_exactly { ReadExactly layout.old text.now }
    ensures first_fault { FirstFaultDecides layout.old text.now }
{
    match scenario(text, layout) {
        Ok(read) => {
            let (study, written) = simulate_text(&InFull, &read, row, memory, report);
            if study.outcome.is_err() {
                unplace(layout);
            }
            (study, written)
        }
        Err(fault) => {
            let study = Simulated {
                row,
                memory,
                outcome: Err(fault),
            };
            (study, write(report, Ok(()), Some(InFull.fault(fault))))
        }
    }
}
