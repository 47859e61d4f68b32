//! The single study of a placement under a schedule.
ghost use Rattle.std.specs.Prelude.{OnOk};
ghost use Rattle.std.specs.Io.KnownBytes.{Appends};
ghost use Rattle.scenario.specs.Texts.{single_of};
ghost use Rattle.report.specs.Lines.{text_of};
ghost use Rattle.report.specs.Reading.{ReadBack};
ghost use Rattle.round_trip.specs.Exactly.{PairReadExactly};
ghost use Rattle.round_trip.specs.FirstFault.{PairFirstFaultDecides};
ghost use Rattle.simulator.specs.Simulation.{IsSimulated};
ghost use Rattle.paired.specs.Single.{single_study_of, side_lines};

use memory::Memory;
use report::line::Line;
use report::paired_lines::Side;
use row::Row;
use scenario::fault::{File, FileFault};
use scenario::texts;
use simulator::simulate::{Simulated, simulate_text};
use std::io;
use std::io::Write;

/// Reads a placement and a schedule, plays the study on this row and this memory, and tells it as one side of a pair; beside the
/// study, whether that was written. It is played to its end even where it cannot be written.
#[tactic(auto, using(crate::proofs::Telling::side_told, crate::proofs::Telling::side_reads, round_trip::proofs::Exactly::pair_read_exactly, round_trip::proofs::FirstFaults::pair_decides))]
pub fn single<R: Row, M: Memory, W: Write>(
    side: Side,
    placement: &[u8],
    schedule: &[u8],
    row: R,
    memory: M,
    report: &mut W,
) -> (Simulated<R, M, FileFault>, io::Result<()>)
    ensures study { IsSimulated R.cores M.meaning single_study_of (single_of placement.now schedule.now) row memory result.0 }
    ensures report { OnOk result.1 (Appends (W.contents report.old) (W.contents report.new) (text_of (side_lines side placement.now schedule.now (R.cores row) (M.meaning memory)))) }
    ensures reads_back { ReadBack (side_lines side placement.now schedule.now (R.cores row) (M.meaning memory)) }
    ensures read_exactly { PairReadExactly placement.now schedule.now }
    ensures first_fault { PairFirstFaultDecides placement.now schedule.now }
{
    match texts::single(placement, schedule) {
        Ok(read) => {
            let (told, written) = simulate_text(&side, &read, row, memory, report);
            let study = Simulated {
                row: told.row,
                memory: told.memory,
                outcome: told.outcome.map_err(|fault| FileFault {
                    file: File::Schedule,
                    fault,
                }),
            };
            (study, written)
        }
        Err(at) => {
            let line = Line::of_side_fault(side, at.file, at.fault);
            let study = Simulated {
                row,
                memory,
                outcome: Err(at),
            };
            (study, report.write_all(line.bytes()))
        }
    }
}
