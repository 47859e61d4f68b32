//! A cell of a block table.

/// Whether main memory's copy of a block counts.
#[derive(Clone, Copy, PartialEq, Eq, Debug)]
pub enum State {
    Valid,
    Stale,
}

/// One block of a table: its state, and the stamp that it was last given.
// A stale cell keeps its stamp, and whoever lent the table reads it.
#[derive(Clone, Copy, PartialEq, Eq, Debug)]
pub struct Cell {
    pub state: State,
    pub stamp: u32,
}

/// A stale cell that was never given a stamp, for a table whose cells are overwritten before they are read, as opening a study does.
pub const UNSET: Cell = Cell {
    state: State::Stale,
    stamp: 0,
};
