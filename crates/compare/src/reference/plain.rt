//! A machine as plain data: levels of cores, cells of memory, and how the memory is made of them.

use memory::cell::Cell;

/// One level of a core's caches. A size that is out of range stands for one line.
#[derive(Clone, Copy)]
pub(crate) enum Level {
    /// 1 to 64 lines.
    Direct(usize),
    /// 1 to 16 lines, first in first out.
    Queue(usize),
    /// 1 to 16 lines, of which the least recently used leaves.
    Recent(usize),
    /// 1 to 16 sets of 1 to 4 ways.
    Sets(usize, usize),
}

/// A memory over cells, or over parts that stand before it in their list.
#[derive(Clone, Copy)]
pub(crate) enum Part {
    /// The next so many cells, which no earlier part took.
    Flat(usize),
    /// Two parts in turn.
    Interleaved(usize, usize),
    /// A start and a length in a part.
    Window(usize, usize, usize),
}

/// Each level with the number of its core, core after core and for each from the first level on; the parts of the memory, of
/// which the last is the whole; and all cells, table after table, which a study changes. How the levels were piled makes no
/// difference, and so is not told.
#[derive(Drop)]
pub(crate) struct Machine<'a, 'c> {
    pub(crate) levels: &'a [(usize, Level)],
    pub(crate) parts: &'a [Part],
    pub(crate) cells: &'c mut [Cell],
}
