//! Two placements under one schedule.
ghost use Rattle.std.specs.Prelude.{◌≡◌, OnOk, IsOk};
ghost use Rattle.std.specs.Io.KnownBytes.{Appends};
ghost use Rattle.scenario.specs.Texts.{single_of};
ghost use Rattle.report.specs.Lines.{text_of};
ghost use Rattle.report.specs.Reading.{ReadBack};
ghost use Rattle.report.specs.declared.paired_lines.Side.TheVariants.{A, B};
ghost use Rattle.simulator.specs.Simulation.{IsSimulated};
ghost use Rattle.paired.specs.Single.{single_study_of, side_lines, figure_of, pair_lines};

use crate::single::single;
use memory::Memory;
use report::line::Line;
use report::paired_lines::Side;
use row::Row;
use scenario::fault::FileFault;
use simulator::simulate::Simulated;
use std::io;
use std::io::Write;
use study::quote::Quote;

/// A placement, and the row and the memory on which its study is played.
#[derive(Drop)]
pub struct Placement<'t, R, M> {
    pub text: &'t [u8],
    pub row: R,
    pub memory: M,
}

/// What two studies came to, and whether they were told.
#[derive(Drop)]
pub struct Comparison<R, M, S, N> {
    pub a: Simulated<R, M, FileFault>,
    pub b: Simulated<S, N, FileFault>,
    pub written: io::Result<()>,
}

// The figure of a study that came to a quote.
fn figure(outcome: Result<Quote, FileFault>) -> Option<u64>
    ensures { result ≡ figure_of outcome }
{
    outcome.ok().and_then(|quote| quote.figure)
}

// Writes a line, if both sides were written.
fn finish<W: Write>(
    report: &mut W,
    a: io::Result<()>,
    b: io::Result<()>,
    line: &Line,
) -> io::Result<()>
    ensures { OnOk result (IsOk a × IsOk b × Appends (W.contents report.old) (W.contents report.new) line.now) }
{
    a?;
    b?;
    report.write_all(line.bytes())
}

/// Plays the single study of each placement under the schedule, on its own row and memory, and tells both sides and the
/// difference of their figures.
#[tactic(auto, using(crate::proofs::Telling::both_told, crate::proofs::Telling::both_read))]
pub fn compare<R: Row, M: Memory, S: Row, N: Memory, W: Write>(
    a: Placement<'_, R, M>,
    b: Placement<'_, S, N>,
    schedule: &[u8],
    report: &mut W,
) -> Comparison<R, M, S, N>
    ensures a { IsSimulated R.cores M.meaning single_study_of (single_of a.entry.text.now schedule.now) a.entry.row a.entry.memory result.a }
    ensures b { IsSimulated S.cores N.meaning single_study_of (single_of b.entry.text.now schedule.now) b.entry.row b.entry.memory result.b }
    ensures report { OnOk result.written (Appends (W.contents report.old) (W.contents report.new) (text_of (pair_lines
        (side_lines A a.entry.text.now schedule.now (R.cores a.entry.row) (M.meaning a.entry.memory))
        (side_lines B b.entry.text.now schedule.now (S.cores b.entry.row) (N.meaning b.entry.memory))
        result.a.outcome result.b.outcome))) }
    ensures reads_back { ReadBack (pair_lines
        (side_lines A a.entry.text.now schedule.now (R.cores a.entry.row) (M.meaning a.entry.memory))
        (side_lines B b.entry.text.now schedule.now (S.cores b.entry.row) (N.meaning b.entry.memory))
        result.a.outcome result.b.outcome) }
{
    let (first, first_written) = single(Side::A, a.text, schedule, a.row, a.memory, report);
    let (second, second_written) = single(Side::B, b.text, schedule, b.row, b.memory, report);
    let line = Line::of_difference(figure(first.outcome), figure(second.outcome));
    let written = finish(report, first_written, second_written, &line);
    Comparison {
        a: first,
        b: second,
        written,
    }
}
