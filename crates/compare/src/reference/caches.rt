//! The caches of all cores, as one list of slots.

use crate::reference::plain::Level;

/// A block with what is known of it.
#[derive(Clone, Copy)]
pub(crate) struct Line {
    pub(crate) block: usize,
    pub(crate) modified: bool,
    pub(crate) stamp: u32,
}

/// A place for one line: that of a level of a core. A block may stand in it if its number leaves this rest when divided by the
/// number of rooms. An age of 0 says that nothing stands there.
#[derive(Clone, Copy)]
pub(crate) struct Slot {
    core: usize,
    pub(crate) level: usize,
    rooms: usize,
    room: usize,
    pub(crate) queues: bool,
    pub(crate) age: u64,
    pub(crate) line: Line,
}

// No machine here has more places.
const MOST_SLOTS: usize = 128;

// A place of no core.
const NOWHERE: Slot = Slot {
    core: usize::MAX,
    level: 0,
    rooms: 1,
    room: 0,
    queues: false,
    age: 0,
    line: Line {
        block: 0,
        modified: false,
        stamp: 0,
    },
};

#[derive(Drop)]
pub(crate) struct Caches([Slot; MOST_SLOTS]);

// How many rooms a level has, how many places in each, and whether a touch leaves its lines as old as they were.
fn shape(level: Level) -> (usize, usize, bool) {
    match level {
        Level::Direct(lines @ 1..=64) => (lines, 1, false),
        Level::Queue(lines @ 1..=16) => (1, lines, true),
        Level::Recent(lines @ 1..=16) => (1, lines, false),
        Level::Sets(sets @ 1..=16, ways @ 1..=4) => (sets, ways, false),
        _ => (1, 1, false),
    }
}

impl Caches {
    /// Empty caches.
    pub(crate) fn new(levels: &[(usize, Level)]) -> Caches {
        let mut slots = [NOWHERE; MOST_SLOTS];
        let mut free = slots.iter_mut();
        let mut last = 0usize;
        let mut depth = 0usize;
        for (core, level) in levels {
            if *core != last {
                last = *core;
                depth = 0;
            }
            let (rooms, places, queues) = shape(*level);
            for number in 0..rooms.wrapping_mul(places) {
                if let Some(slot) = free.next() {
                    slot.core = last;
                    slot.level = depth;
                    slot.rooms = rooms;
                    slot.room = number.checked_rem(rooms).unwrap_or(0);
                    slot.queues = queues;
                }
            }
            depth = depth.wrapping_add(1);
        }
        Caches(slots)
    }

    /// The slot of a block that a core holds.
    pub(crate) fn find(&mut self, core: usize, block: usize) -> Option<&mut Slot> {
        for slot in self.0.iter_mut() {
            if slot.age > 0 && slot.core == core && slot.line.block == block {
                return Some(slot);
            }
        }
        None
    }

    // The place of the slot of a level that a block would be put into: an empty one, or that of the oldest line.
    fn oldest(&self, core: usize, level: usize, block: usize) -> Option<usize> {
        let mut oldest = None;
        let mut age = u64::MAX;
        for (place, slot) in self.0.iter().enumerate() {
            let is_here = slot.core == core && slot.level == level;
            if is_here && slot.age < age && block.checked_rem(slot.rooms) == Some(slot.room) {
                oldest = Some(place);
                age = slot.age;
            }
        }
        oldest
    }

    /// Puts a line into a core's first level. What makes way in a level sinks into the next, and out of the last it leaves.
    pub(crate) fn put(&mut self, core: usize, line: Line, age: u64) -> Option<Line> {
        let mut line = line;
        for level in 0..self.0.len() {
            let Some(place) = self.oldest(core, level, line.block) else {
                break;
            };
            let Some(slot) = self.0.get_mut(place) else {
                break;
            };
            let old = *slot;
            slot.line = line;
            slot.age = age;
            line = old.line;
            if old.age == 0 {
                return None;
            }
        }
        Some(line)
    }

    /// Takes a block from every core but one.
    pub(crate) fn drop_elsewhere(&mut self, sender: usize, block: usize) {
        for slot in self.0.iter_mut() {
            if slot.core != sender && slot.line.block == block {
                slot.age = 0;
            }
        }
    }
}
