//! A memory over a table of cells that a caller lends.
ghost use Rattle.std.specs.Prelude.{◌≡◌, is_ok, MatchResult, if◌then◌else◌, Ok, Err, nat_lt};
ghost use Rattle.memory.specs.declared.refusal.Refusal.TheVariants.{BadTable, NoSuchBlock};
ghost use Rattle.memory.specs.Flat.{fits, flat_size, flat};
ghost use Rattle.memory.specs.FlatLaws.{flat-lawful};

use crate::Memory;
use crate::cell::{Cell, State};
use crate::refusal::Refusal;

/// The most cells that a table may have.
pub const MOST_CELLS: usize = 4096;

/// Block n is cell n of the table.
#[derive(Drop)]
pub struct Flat<'a> {
    table: &'a mut [Cell],
}

/// A table that is refused: the memory over it has no block, and gives the table back.
#[derive(Drop)]
pub struct RefusedTable<'a> {
    pub refusal: Refusal,
    pub memory: Flat<'a>,
}

impl<'a> Flat<'a> {
    /// The memory over a table of 1 to 4,096 cells, which stay as they are.
    pub fn new(table: &'a mut [Cell]) -> Result<Flat<'a>, RefusedTable<'a>>
        ensures fits { is_ok result ≡ fits table.old }
        ensures holds { MatchResult result (λ f. f.table ≡ table.entry) (λ e. (e.refusal ≡ BadTable) × (e.memory.table ≡ table.entry)) }
    {
        let fits = (1..=MOST_CELLS).contains(&table.len());
        let memory = Flat::over(table);
        if fits {
            Ok(memory)
        } else {
            Err(RefusedTable {
                refusal: Refusal::BadTable,
                memory,
            })
        }
    }

    /// The memory over any table. Over a table that `new` refuses it has no block.
    pub fn over(table: &'a mut [Cell]) -> Flat<'a>
        ensures { result.table ≡ table.entry }
    {
        Self { table }
    }

    /// The table, as the memory leaves it.
    pub fn into_table(self) -> &'a mut [Cell]
        ensures { result ≡ self.entry.table }
    {
        let Flat { table } = self;
        table
    }

    /// The place of a block's cell.
    fn place(&self, block: u16) -> Result<usize, Refusal>
        ensures { result ≡ (if nat_lt block (flat_size self.now.table.now) then Ok block else Err NoSuchBlock) }
    {
        if u32::from(block) < self.size() {
            Ok(usize::from(block))
        } else {
            Err(Refusal::NoSuchBlock)
        }
    }
}

impl<'a> Memory for Flat<'a> {
    ghost meaning = { λ f. flat f.table.ghost_name f.table.now };

    ghost lawful = { λ f. flat-lawful f.table.ghost_name f.table.now };

    fn size(&self) -> u32 {
        let cells = self.table.len();
        // `as` loses nothing: proved
        if cells > MOST_CELLS { 0 } else { cells as u32 }
    }

    fn ask(&self, block: u16) -> Result<Option<u32>, Refusal> {
        let cell = self.table[self.place(block)?];
        Ok(match cell.state {
            State::Valid => Some(cell.stamp),
            State::Stale => None,
        })
    }

    fn store(&mut self, block: u16, stamp: u32) -> Result<(), Refusal> {
        let place = self.place(block)?;
        self.table[place] = Cell {
            state: State::Valid,
            stamp,
        };
        Ok(())
    }

    fn stale(&mut self, block: u16) -> Result<(), Refusal> {
        let place = self.place(block)?;
        self.table[place].state = State::Stale;
        Ok(())
    }
}
