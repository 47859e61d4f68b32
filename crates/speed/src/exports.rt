//! What C calls.
ghost use Rattle.std.specs.Prelude.{◌≡◌, ◌<◌, ◌≤◌, [], cond, map, length, take, drop, IfSome, Some};
ghost use Rattle.std.specs.Bool.{OnTrue, OnFalse};
ghost use Rattle.machine.specs.Machine.{two_cores};
ghost use Rattle.machine_study.specs.Reported.{scenario_report, Reported};
ghost use Rattle.speed.specs.Requests.{call_of};
ghost use Rattle.speed.specs.Eight.{eight_cores};
ghost use Rattle.speed.specs.Played.{Played};

use crate::eight::eight_cores;
use crate::play::play;
use crate::requests::{Request, Tally};
use crate::told::told;
use machine::two_cores;
use std::alloc::Global;

// What is asked for, on the one machine or on the other.
fn played(heap: Global, deep: bool, blocks: u16, requests: &[Request]) -> Option<Tally>
    ensures { IfSome result (Played (cond deep eight_cores two_cores) blocks (map call_of requests.now)) }
{
    if deep {
        let Ok(row) = eight_cores(heap) else {
            return None;
        };
        return play(heap, row, blocks, requests);
    }
    let Ok(row) = two_cores(heap) else {
        return None;
    };
    play(heap, row, blocks, requests)
}

/// Plays what is asked for over a memory of so many blocks, 1 to 4,096, and writes what it came to: on eight cores of four
/// levels if it is to be deep, else on two cores of two. A `false` says that the memory is none, or that there is no room for it.
#[unsafe(no_mangle)]
pub extern "C" fn speed_play(
    heap: Global,
    deep: bool,
    blocks: u16,
    requests: &[Request],
    tally: &mut Tally,
) -> bool
    ensures played { OnTrue result (Played (cond deep eight_cores two_cores) blocks (map call_of requests.now) tally.new) }
    ensures kept { OnFalse result (tally.new ≡ tally.old) }
{
    let Some(played) = played(heap, deep, blocks, requests) else {
        return false;
    };
    *tally = played;
    true
}

/// Reads a scenario, plays it on two cores over 16 blocks, writes the report to the front of the buffer and answers how many
/// bytes it has. A 0 says that the buffer is too short, or that there is no memory.
#[unsafe(no_mangle)]
pub extern "C" fn speed_report(heap: Global, text: &[u8], buffer: &mut [u8]) -> usize
    ensures report { 0 < result → Reported (scenario_report text.now) (Some []) (Some (take result buffer.new)) }
    ensures rest { drop result buffer.new ≡ drop result buffer.old }
    ensures within { result ≤ length buffer.new }
{
    let Ok(bytes) = told(heap, text, buffer.len()) else {
        return 0;
    };
    let written = bytes.len();
    if written > buffer.len() {
        return 0;
    }
    buffer[..written].copy_from_slice(bytes.as_slice());
    written
}
