//! One trial: the simulator and the reference are asked the same on the same machine, and all that they tell and leave is kept.

use crate::limit::{play, replay};
use crate::machines::{Kind, MCSIM, levels_of, parts_of};
use crate::reference::paper::Paper;
use crate::reference::plain::{Machine, Part};
use crate::reference::{SCENARIO, Teller};
use machine::two_cores;
use memory::Memory;
use memory::cell::Cell;
use memory::flat::Flat;
use paired::comparison::{Placement, compare};
use row::Row;
use simulator::simulate::simulate;
use std::alloc::{AllocError, Global};

/// What is asked of a machine.
#[derive(Clone, Copy)]
pub(crate) enum Sort {
    /// The first text, a scenario.
    Scenario,
    /// The first text, a schedule, under the placements after it.
    Pair,
    /// More steps than are accepted.
    Million,
}

/// What is asked, and reports, layout tables and cells of both. The first machine of a pair is the one that is tried, over cells
/// that stand elsewhere; the second is mcsim's, over the second cells.
#[derive(Drop)]
pub(crate) struct Trial {
    pub(crate) texts: [Paper; 3],
    /// For a text that is being changed.
    pub(crate) spare: Paper,
    pub(crate) sort: Sort,
    pub(crate) told: Vec<u8>,
    pub(crate) teller: Teller,
    pub(crate) layout: Vec<u32>,
    pub(crate) layout_again: Vec<u32>,
    pub(crate) cells_again: Vec<Cell>,
    pub(crate) second: Vec<Cell>,
    pub(crate) second_again: Vec<Cell>,
}

impl Trial {
    /// A trial of nothing yet, with empty tables.
    pub(crate) fn new(heap: Global) -> Trial {
        Trial {
            texts: [Paper::new(heap), Paper::new(heap), Paper::new(heap)],
            spare: Paper::new(heap),
            sort: Sort::Scenario,
            told: Vec::new(heap),
            teller: Teller::new(heap),
            layout: Vec::new(heap),
            layout_again: Vec::new(heap),
            cells_again: Vec::new(heap),
            second: Vec::new(heap),
            second_again: Vec::new(heap),
        }
    }

    /// Forgets the texts, for the next question.
    pub(crate) fn ask(&mut self, sort: Sort) {
        for text in self.texts.iter_mut() {
            text.clear();
        }
        self.sort = sort;
    }

    /// Forgets what was told and left.
    pub(crate) fn forget(&mut self) {
        self.told.clear();
        self.teller.report.clear();
        self.layout.clear();
        self.layout_again.clear();
        self.cells_again.clear();
        self.second.clear();
        self.second_again.clear();
    }

    /// Whether memory was wanting for a text, or for what the reference tells.
    pub(crate) fn is_torn(&self) -> bool {
        let [a, b, c] = &self.texts;
        a.is_torn || b.is_torn || c.is_torn || self.spare.is_torn || self.teller.is_torn()
    }
}

// What the reference tells and leaves of a scenario.
fn retell_scenario(teller: &mut Teller, machine: Machine, layout: &mut [u32], texts: &[Paper; 3]) {
    let texts = [(SCENARIO, texts[0].bytes())];
    teller.tell("", machine, layout, &texts);
}

// What the reference tells and leaves of a pair.
fn retell_pair(teller: &mut Teller, machine: Machine, second: &mut [Cell], texts: &[Paper; 3]) {
    let parts = [Part::Flat(second.len())];
    let other = Machine {
        levels: &MCSIM,
        parts: &parts,
        cells: second,
    };
    let [text, a, b] = texts;
    teller.tell_pair(machine, other, [a.bytes(), b.bytes(), text.bytes()]);
}

/// What the reference tells and leaves.
pub(crate) fn retell(trial: &mut Trial, kind: Kind, sizes: (usize, usize)) {
    let levels = levels_of(kind, sizes);
    let parts = parts_of(kind, trial.cells_again.len());
    let machine = Machine {
        levels: levels.list(),
        parts: parts.list(),
        cells: trial.cells_again.as_mut_slice(),
    };
    let teller = &mut trial.teller;
    match trial.sort {
        Sort::Scenario => {
            let layout = trial.layout_again.as_mut_slice();
            retell_scenario(teller, machine, layout, &trial.texts);
        }
        Sort::Pair => {
            let second = trial.second_again.as_mut_slice();
            retell_pair(teller, machine, second, &trial.texts);
        }
        Sort::Million => replay(machine, &mut teller.report),
    }
}

// A pair, whose second side is played on another row, over the second cells; tells whether all was written.
fn run_pair<R: Row + Drop, M: Memory + Drop, S: Row + Drop>(
    trial: &mut Trial,
    row: R,
    memory: M,
    other: Result<S, AllocError>,
) -> Result<bool, AllocError> {
    let [text, a, b] = &trial.texts;
    let other = other?;
    let a = Placement {
        text: a.bytes(),
        row,
        memory,
    };
    let b = Placement {
        text: b.bytes(),
        row: other,
        memory: Flat::over(trial.second.as_mut_slice()),
    };
    let comparison = compare(a, b, text.bytes(), &mut trial.told);
    Ok(comparison.written.is_ok())
}

// A scenario; tells whether all was written.
fn run_scenario<R: Row + Drop, M: Memory + Drop>(trial: &mut Trial, row: R, memory: M) -> bool {
    let [text, ..] = &trial.texts;
    let layout = trial.layout.as_mut_slice();
    let (_, written) = simulate(text.bytes(), layout, row, memory, &mut trial.told);
    written.is_ok()
}

/// What the simulator tells and leaves.
pub(crate) fn run<R: Row + Drop, M: Memory + Drop>(
    heap: Global,
    trial: &mut Trial,
    row: R,
    memory: M,
) -> Result<(), AllocError> {
    let is_written = match trial.sort {
        Sort::Scenario => run_scenario(trial, row, memory),
        Sort::Pair => run_pair(trial, row, memory, two_cores(heap))?,
        Sort::Million => return play(row, memory, &mut trial.told),
    };
    if is_written { Ok(()) } else { Err(AllocError) }
}
