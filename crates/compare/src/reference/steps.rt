//! A study: cores over one memory, played call by call.

use crate::reference::blocks::Memory;
use crate::reference::caches::{Caches, Line, Slot};
use crate::reference::plain::Machine;
use memory::cell::{Cell, State};

const MOST_STEPS: u64 = 1_000_000;

const MOST_WEIGHT: u32 = 1_000;

const MOST_CORES: usize = 8;

#[derive(Clone, Copy)]
pub(crate) enum Kind {
    Read,
    Write,
    Fetch,
    Resume,
    Flush,
    Commit,
}

/// A call of a core. Fetch and resume have no use for the block.
#[derive(Clone, Copy)]
pub(crate) struct Call {
    pub(crate) kind: Kind,
    pub(crate) core: usize,
    pub(crate) block: usize,
}

/// What became of a call: its word, a value that goes with the word, and the total of all charges after it.
#[derive(Clone, Copy)]
pub(crate) struct Turn {
    pub(crate) word: &'static str,
    pub(crate) value: u64,
    pub(crate) total: u64,
    pub(crate) refused: bool,
}

// The access that a core last asked for, and how far it has come with it.
#[derive(Clone, Copy)]
struct Core {
    waiting: bool,
    due: bool,
    writes: bool,
    block: usize,
}

const READY: Core = Core {
    waiting: false,
    due: false,
    writes: false,
    block: 0,
};

/// The state of a study. Of the weights the first four are those of the levels, the fifth is that of the memory.
#[derive(Drop)]
pub(crate) struct Study<'a> {
    caches: Caches,
    cores: [Core; MOST_CORES],
    count: usize,
    memory: Memory<'a>,
    weights: [u32; 5],
    accepted: u64,
    writes: u32,
    pub(crate) accesses: u64,
    pub(crate) total: u64,
}

impl<'a> Study<'a> {
    /// A study that has counted nothing yet.
    pub(crate) fn new(machine: Machine<'_, 'a>) -> Study<'a> {
        let Machine {
            levels,
            parts,
            cells,
        } = machine;
        let count = match levels {
            [] => 0,
            [.., (last, _)] => last.saturating_add(1),
        };
        Study {
            caches: Caches::new(levels),
            cores: [READY; MOST_CORES],
            count,
            memory: Memory::new(parts, cells),
            weights: [0; 5],
            accepted: 0,
            writes: 0,
            accesses: 0,
            total: 0,
        }
    }

    /// Opens the study, or leaves all as it was and tells the number of the refusal.
    pub(crate) fn open(&mut self, weights: [u32; 5]) -> u64 {
        for weight in weights.iter() {
            if *weight > MOST_WEIGHT {
                return 3;
            }
        }
        let blocks = self.memory.size();
        if self.count > MOST_CORES {
            return 1;
        }
        if blocks == 0 {
            return 2;
        }
        self.weights = weights;
        for block in 0..blocks {
            self.store(block, 0);
        }
        0
    }

    /// The mean penalty in hundredths.
    pub(crate) fn figure(&self) -> Option<u64> {
        self.total.wrapping_mul(100).checked_div(self.accesses)
    }

    fn store(&mut self, block: usize, stamp: u32) {
        if let Some(cell) = self.memory.cell(block) {
            *cell = Cell {
                state: State::Valid,
                stamp,
            };
        }
    }

    fn charge(&mut self, weight: usize) {
        let price = self.weights.get(weight).copied().unwrap_or(0);
        self.total = self.total.wrapping_add(u64::from(price));
    }

    // A line is put into a core's caches. If a modified one leaves for it, that one is stored, which costs.
    fn put(&mut self, core: usize, line: Line) {
        match self.caches.put(core, line, self.accepted) {
            Some(line) if line.modified => {
                self.store(line.block, line.stamp);
                self.charge(4);
            }
            _ => {}
        }
    }

    // Whether a block that a core holds modified is waited for by another core.
    fn is_owed(&mut self, holder: usize, block: usize) -> bool {
        let mut awaited = false;
        for (number, core) in self.cores.iter().enumerate() {
            awaited = awaited || number != holder && core.waiting && core.block == block;
        }
        awaited && matches!(self.caches.find(holder, block), Some(slot) if slot.line.modified)
    }

    // Whether the block that a core waits for is valid in the memory.
    fn is_valid(&mut self, block: usize) -> bool {
        matches!(self.memory.cell(block), Some(cell) if cell.state == State::Valid)
    }

    // The number of a step's refusal, or 0.
    fn refusal(&mut self, call: Call) -> u64 {
        if self.accepted >= MOST_STEPS {
            return 4;
        }
        match self.cores.get(call.core).copied() {
            Some(core) if call.core < self.count => self.refusal_to(core, call),
            _ => 5,
        }
    }

    // The same, where the core is there.
    fn refusal_to(&mut self, core: Core, call: Call) -> u64 {
        let beyond = call.block >= self.memory.size();
        let (beyond, stands) = match call.kind {
            Kind::Read | Kind::Write | Kind::Commit => (beyond, !core.waiting && !core.due),
            Kind::Fetch => (false, core.waiting),
            Kind::Resume => (false, core.due),
            Kind::Flush => (beyond, true),
        };
        if beyond {
            return 6;
        }
        if !stands {
            return 7;
        }
        match call.kind {
            Kind::Fetch if !self.is_valid(core.block) => 8,
            Kind::Flush if !self.is_owed(call.core, call.block) => 9,
            _ => 0,
        }
    }

    // Touches the slot of a block, if the core holds it; tells the slot as it was found, but written, and whether its line was
    // shared. In the first level the line becomes the newest, but not in a queue; from further down it is taken out.
    fn touch(&mut self, core: usize, block: usize, writes: bool) -> Option<(Slot, bool)> {
        let slot = self.caches.find(core, block)?;
        let shared = !slot.line.modified;
        if writes {
            self.writes = self.writes.wrapping_add(1);
            slot.line.modified = true;
            slot.line.stamp = self.writes;
        }
        let found = *slot;
        if found.level > 0 {
            slot.age = 0;
        } else if !found.queues {
            slot.age = self.accepted;
        }
        Some((found, shared))
    }

    // Takes the block from all others.
    fn claim(&mut self, core: usize, block: usize) {
        self.caches.drop_elsewhere(core, block);
        if let Some(cell) = self.memory.cell(block) {
            cell.state = State::Stale;
        }
    }

    // Counts an access to a line that was found, and brings the line up.
    fn complete(&mut self, core: usize, slot: Slot) {
        self.accesses = self.accesses.wrapping_add(1);
        self.charge(slot.level.min(3));
        if slot.level > 0 {
            self.put(core, slot.line);
        }
    }

    // The access that a core asked for last.
    fn access(&mut self, core: usize) -> (&'static str, u64) {
        let asked = self.cores.get(core).copied().unwrap_or(READY);
        let touched = self.touch(core, asked.block, asked.writes);
        if let Some(asked) = self.cores.get_mut(core) {
            asked.due = false;
            asked.waiting = touched.is_none();
        }
        let Some((slot, shared)) = touched else {
            return ("waits", asked.block as u64);
        };
        if asked.writes && shared {
            self.claim(core, asked.block);
        }
        self.complete(core, slot);
        let word = if asked.writes { "wrote" } else { "read" };
        (word, u64::from(slot.line.stamp))
    }

    fn fetch(&mut self, core: usize) -> (&'static str, u64) {
        let Some(asked) = self.cores.get_mut(core) else {
            return ("", 0);
        };
        let block = asked.block;
        asked.waiting = false;
        asked.due = true;
        let stamp = match self.memory.cell(block) {
            Some(cell) => cell.stamp,
            None => 0,
        };
        self.charge(4);
        self.put(
            core,
            Line {
                block,
                modified: false,
                stamp,
            },
        );
        ("brought", block as u64)
    }

    // Stores the block that a core holds modified, and tells whether it did.
    fn give_back(&mut self, core: usize, block: usize) -> bool {
        match self.caches.find(core, block) {
            Some(slot) if slot.line.modified => {
                slot.line.modified = false;
                let stamp = slot.line.stamp;
                self.store(block, stamp);
                self.charge(4);
                true
            }
            _ => false,
        }
    }

    fn perform(&mut self, call: Call) -> (&'static str, u64) {
        let Call { kind, core, block } = call;
        match kind {
            Kind::Read | Kind::Write => {
                if let Some(asked) = self.cores.get_mut(core) {
                    asked.writes = matches!(kind, Kind::Write);
                    asked.block = block;
                }
                self.access(core)
            }
            Kind::Fetch => self.fetch(core),
            Kind::Resume => self.access(core),
            Kind::Flush => {
                self.give_back(core, block);
                ("flushed", block as u64)
            }
            Kind::Commit => ("committed", u64::from(self.give_back(core, block))),
        }
    }

    /// Makes a step, or refuses it and leaves all as it was.
    pub(crate) fn step(&mut self, call: Call) -> Turn {
        let number = self.refusal(call);
        let refused = number > 0;
        let (word, value) = if refused {
            ("refused", number)
        } else {
            self.accepted = self.accepted.wrapping_add(1);
            self.perform(call)
        };
        Turn {
            word,
            value,
            total: self.total,
            refused,
        }
    }
}
