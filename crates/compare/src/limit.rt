//! A study of more steps than are accepted, and than a text can hold.

use crate::reference::paper::Paper;
use crate::reference::plain::Machine;
use crate::reference::steps::{Call as Again, Kind, Study};
use crate::reference::{tell_quote, tell_turn};
use memory::Memory;
use protocol::call::Call;
use protocol::weights::Prices;
use report::line::Line;
use row::Row;
use std::alloc::AllocError;
use study::stages::Draft;

const PRICES: Prices = Prices {
    w1: 1_000,
    w2: 1_000,
    w3: 1_000,
    w4: 1_000,
    wm: 1_000,
};

// The writes of one core of one line to two blocks in turn: each waits, fetches and resumes. At the highest weights every step
// costs 1,000 in the mean.
static STEPS: [(Call, Kind, usize); 6] = [
    (Call::Write(0, 0), Kind::Write, 0),
    (Call::Fetch(0), Kind::Fetch, 0),
    (Call::Resume(0), Kind::Resume, 0),
    (Call::Write(0, 1), Kind::Write, 1),
    (Call::Fetch(0), Kind::Fetch, 0),
    (Call::Resume(0), Kind::Resume, 0),
];

const TURNS: u32 = 1_000_020;

// The turns from this on are told.
const TOLD: u32 = 999_980;

fn tell(out: &mut Vec<u8>, line: Line) -> bool {
    out.extend_from_slice(line.bytes()).is_ok()
}

/// Plays a million steps and twenty more, which are refused, by the simulator, and tells of the last and of the quote.
pub(crate) fn play<R: Row + Drop, M: Memory + Drop>(
    row: R,
    memory: M,
    out: &mut Vec<u8>,
) -> Result<(), AllocError> {
    let mut draft = Draft::new(row, memory);
    let _ = draft.weigh(PRICES);
    let Ok(mut run) = draft.open() else {
        return Ok(());
    };
    let mut is_written = true;
    for number in 0..TURNS {
        let (call, _, _) = STEPS[number as usize % 6];
        let played = run.take_turn(call);
        if number >= TOLD {
            is_written &= tell(out, Line::of_step(number, &played));
        }
    }
    is_written &= tell(out, Line::of_quote(&run.settle().quote));
    if is_written { Ok(()) } else { Err(AllocError) }
}

/// The same by the reference.
pub(crate) fn replay(machine: Machine, out: &mut Paper) {
    let mut study = Study::new(machine);
    study.open([1_000; 5]);
    for number in 0..TURNS {
        let (_, kind, block) = STEPS[number as usize % 6];
        let call = Again {
            kind,
            core: 0,
            block,
        };
        let turn = study.step(call);
        if number >= TOLD {
            tell_turn(out, "", number as usize, turn);
        }
    }
    tell_quote(out, "", &study);
}
