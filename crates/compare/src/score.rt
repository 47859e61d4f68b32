//! The score: how many cases of a family agree, and the first that does not, in full.

use crate::machines::{Kind, try_on};
use crate::random::Random;
use crate::trial::{Trial, retell};
use memory::cell::{Cell, State};
use std::alloc::{AllocError, Global};
use std::io;

/// What was counted, over all families and in the one that is under way; the trial, which each case uses again; and the cells
/// that its machine is lent.
#[derive(Drop)]
pub(crate) struct Score {
    pub(crate) differing: usize,
    cases: usize,
    agreed: usize,
    pub(crate) trial: Trial,
    cells: Vec<Cell>,
    /// The first error, after which nothing is tried or told.
    pub(crate) failure: Option<io::Error>,
}

/// A kind of machine with so many cells, a layout table of so many entries, and a seed.
#[derive(Clone, Copy)]
pub(crate) struct Setting {
    pub(crate) kind: Kind,
    pub(crate) cells: usize,
    pub(crate) entries: usize,
    pub(crate) seed: u64,
}

impl Setting {
    pub(crate) fn new(kind: Kind, seed: u64) -> Setting {
        Setting {
            kind,
            cells: 16,
            entries: 256,
            seed,
        }
    }
}

// What a trial left that differs, if anything does.
fn verdict(trial: &Trial, cells: &[Cell]) -> &'static str {
    if trial.told.as_slice() != trial.teller.report.bytes() {
        "reports"
    } else if trial.layout != trial.layout_again {
        "layout tables"
    } else if cells != trial.cells_again.as_slice() {
        "cells"
    } else if trial.second != trial.second_again {
        "cells of the second side"
    } else {
        ""
    }
}

// The following fill tables, and tell whether there was memory for it.

fn fill_cells(cells: &mut Vec<Cell>, random: &mut Random, count: usize) -> bool {
    let mut fits = true;
    for _ in 0..count {
        let stamp = random.word(0, 4_294_967_295);
        let valid = stamp % 2 == 0;
        let state = if valid { State::Valid } else { State::Stale };
        fits &= cells.push(Cell { state, stamp }).is_ok();
    }
    fits
}

fn fill_layout(layout: &mut Vec<u32>, random: &mut Random, count: usize) -> bool {
    let mut fits = true;
    for _ in 0..count {
        fits &= layout.push(random.word(0, 70_000)).is_ok();
    }
    fits
}

// Gives both sides of a trial the same cells and entries.
fn copy_tables(trial: &mut Trial, cells: &[Cell]) -> bool {
    let some = cells.get(..16).unwrap_or(cells);
    let layout = trial.layout.as_slice();
    trial.cells_again.extend_from_slice(cells).is_ok()
        && trial.second.extend_from_slice(some).is_ok()
        && trial.second_again.extend_from_slice(some).is_ok()
        && trial.layout_again.extend_from_slice(layout).is_ok()
}

fn show_text(rt: &HostRuntime, title: &str, text: &[u8]) -> io::Result<()> {
    let shown = String::from_utf8_lossy(rt.alloc(), text)?;
    println!(rt; "-- {title}, {} bytes:\n{shown}", text.len())
}

// Shows a trial in full.
fn show(rt: &HostRuntime, trial: &Trial) -> io::Result<()> {
    let [first, second, third] = &trial.texts;
    show_text(rt, "the scenario or schedule", first.bytes())?;
    show_text(rt, "placement a", second.bytes())?;
    show_text(rt, "placement b", third.bytes())?;
    show_text(rt, "the simulator", trial.told.as_slice())?;
    show_text(rt, "the reference", trial.teller.report.bytes())
}

impl Score {
    pub(crate) fn new(heap: Global) -> Score {
        Score {
            differing: 0,
            cases: 0,
            agreed: 0,
            trial: Trial::new(heap),
            cells: Vec::new(heap),
            failure: None,
        }
    }

    // Fills all tables anew; tells whether there was memory for it.
    fn fill(&mut self, random: &mut Random, setting: Setting) -> bool {
        self.trial.forget();
        self.cells.clear();
        fill_cells(&mut self.cells, random, setting.cells)
            && fill_layout(&mut self.trial.layout, random, setting.entries)
            && copy_tables(&mut self.trial, self.cells.as_slice())
    }

    // Does what is asked both ways, and tells what differs.
    fn both(&mut self, heap: Global, setting: Setting) -> Result<&'static str, AllocError> {
        let mut random = Random::new(setting.seed);
        let fits = self.fill(&mut random, setting);
        let most = if random.once_in(10) { 18 } else { 4 };
        let sizes = (random.among(1, most), random.among(1, most));
        retell(&mut self.trial, setting.kind, sizes);
        let cells = self.cells.as_mut_slice();
        let tried = try_on(heap, setting.kind, &mut self.trial, cells, sizes);
        if !fits || tried.is_err() || self.trial.is_torn() {
            return Err(AllocError);
        }
        Ok(verdict(&self.trial, self.cells.as_slice()))
    }

    // Tries and counts the case that the trial asks; shows it if it is the first of all that differs.
    fn try_case(&mut self, rt: &HostRuntime, setting: Setting) -> io::Result<()> {
        let differing = self.both(rt.alloc(), setting)?;
        self.cases = self.cases.wrapping_add(1);
        if differing.is_empty() {
            self.agreed = self.agreed.wrapping_add(1);
            return Ok(());
        }
        self.differing = self.differing.wrapping_add(1);
        if self.differing > 1 {
            return Ok(());
        }
        let number = self.cases;
        println!(rt; "== case {number} of the next family differs: {differing}")?;
        show(rt, &self.trial)
    }

    /// Remembers an error, if it is the first.
    pub(crate) fn fail(&mut self, error: io::Error) {
        if self.failure.is_none() {
            self.failure = Some(error);
        }
    }

    /// Tries the case that the trial asks.
    pub(crate) fn judge(&mut self, rt: &HostRuntime, setting: Setting) {
        if self.failure.is_none() {
            if let Err(error) = self.try_case(rt, setting) {
                self.fail(error);
            }
        }
    }

    /// Tells how a family came out, and begins the next.
    pub(crate) fn close(&mut self, rt: &HostRuntime, family: &str, name: &str) {
        let agreed = self.agreed;
        let cases = self.cases;
        self.cases = 0;
        self.agreed = 0;
        if self.failure.is_none() {
            if let Err(error) = println!(rt; "{family}{name}\t{agreed} of {cases}") {
                self.fail(error);
            }
        }
    }
}
