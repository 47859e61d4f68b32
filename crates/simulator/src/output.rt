//! Lines that are written as long as writing succeeds.
ghost use Rattle.std.specs.Prelude.{◌≡◌, OnOk, IsOk};
ghost use Rattle.std.specs.Io.KnownBytes.{Appends};
ghost use Rattle.simulator.specs.Inner.{line_text};

use report::line::Line;
use std::io;
use std::io::Write;

// Writes a line, if there is one and unless an earlier one was not written.
#[tactic(auto, using(crate::proofs::Playing::appends_none))]
pub(crate) fn write<W: Write>(
    out: &mut W,
    written: io::Result<()>,
    line: Option<Line>,
) -> io::Result<()>
    ensures { OnOk result (IsOk written × Appends (W.contents out.old) (W.contents out.new) (line_text line)) }
{
    written?;
    match line {
        Some(line) => out.write_all(line.bytes()),
        None => Ok(()),
    }
}
