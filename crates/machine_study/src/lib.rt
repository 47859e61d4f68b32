//! Studies on the machine of the programs: from the bytes of their texts to those of their reports.
#![tactic(auto)]

ghost use Rattle.std.specs.Prelude.{OnOk};
ghost use Rattle.std.specs.Io.KnownBytes.{Appends};
ghost use Rattle.scenario.specs.Texts.{unplaced, scenario_of};
ghost use Rattle.report.specs.Lines.{text_of};
ghost use Rattle.report.specs.Reading.{ReadBack};
ghost use Rattle.simulator.specs.Report.{in_full, report_lines};
ghost use Rattle.machine_study.specs.Reported.{scenario_report, pair_report, Reported};

use machine::{BLOCKS, two_cores};
use memory::Memory;
use memory::cell::UNSET;
use memory::flat::Flat;
use paired::comparison::{Placement, compare};
use row::Row;
use scenario::layout::{REFERENCES, UNPLACED};
use simulator::simulate::simulate;
use std::alloc::Global;
use std::io;
use std::io::Write;

/// Plays a scenario on two cores over 16 blocks, and writes its report, also that of a fault. An error is want of memory, or one
/// of the writer.
pub fn report_scenario<W: Write>(heap: Global, text: &[u8], report: &mut W) -> io::Result<()>
    ensures { OnOk result (Reported (scenario_report text.now) (W.contents report.old) (W.contents report.new)) }
{
    let mut table = [UNSET; BLOCKS];
    let row = two_cores(heap)?;
    report_on(text, row, Flat::over(&mut table), report)
}

// The same on any row and memory.
fn report_on<R: Row + Drop, M: Memory + Drop, W: Write>(
    text: &[u8],
    row: R,
    memory: M,
    report: &mut W,
) -> io::Result<()>
    ensures report { OnOk result (Appends (W.contents report.old) (W.contents report.new) (text_of (report_lines in_full (scenario_of unplaced text.now) (R.Row.cores row) (M.Memory.meaning memory)))) }
    ensures reads_back { ReadBack (report_lines in_full (scenario_of unplaced text.now) (R.Row.cores row) (M.Memory.meaning memory)) }
{
    let mut layout = [UNPLACED; REFERENCES];
    let (_, written) = simulate(text, &mut layout, row, memory, report);
    written
}

/// Plays two placements under one schedule, each on two cores over 16 blocks of its own, and writes what both come to, also where
/// one has a fault. An error is want of memory, or one of the writer.
pub fn report_pair<W: Write>(
    heap: Global,
    a: &[u8],
    b: &[u8],
    schedule: &[u8],
    report: &mut W,
) -> io::Result<()>
    ensures { OnOk result (Reported (pair_report a.now b.now schedule.now) (W.contents report.old) (W.contents report.new)) }
{
    let mut first_table = [UNSET; BLOCKS];
    let mut second_table = [UNSET; BLOCKS];
    let first = Placement {
        text: a,
        row: two_cores(heap)?,
        memory: Flat::over(&mut first_table),
    };
    let second = Placement {
        text: b,
        row: two_cores(heap)?,
        memory: Flat::over(&mut second_table),
    };
    compare(first, second, schedule, report).written
}
