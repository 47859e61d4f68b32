//! A scenario, from its bytes to those of its report.
ghost use Rattle.std.specs.Prelude.{[], IfOk, Some};
ghost use Rattle.machine_study.specs.Reported.{scenario_report, Reported};

use machine_study::report_scenario;
use std::alloc::Global;
use std::io;

/// The report of a text on two cores over 16 blocks, with room for so many bytes from the start. An error is want of memory.
pub(crate) fn told(heap: Global, text: &[u8], room: usize) -> io::Result<Vec<u8>>
    ensures { IfOk result (λ bytes. Reported (scenario_report text.now) (Some []) (Some bytes.items)) }
{
    let mut bytes = Vec::with_capacity(heap, room)?;
    report_scenario(heap, text, &mut bytes)?;
    Ok(bytes)
}
