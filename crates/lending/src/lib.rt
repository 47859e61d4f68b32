//! Whoever lends a table knows what it holds when it comes back.
#![tactic(auto)]

ghost use Rattle.std.specs.Prelude.{◌≡◌};
ghost use Rattle.device.specs.Device.{after};
ghost use Rattle.memory.specs.Meaning.{store, stale};
ghost use Rattle.lending.specs.Retired.{retired, retired_in};

use memory::Memory;
use memory::cell::Cell;
use memory::flat::Flat;
use window::Window;

/// Stores a last stamp in a block of any memory, and makes the block stale.
pub fn retire<M: Memory>(memory: &mut M, block: u16, stamp: u32)
    ensures { M.Memory.meaning memory.new ≡ after (after (M.Memory.meaning memory.old) (store block stamp)) (stale block) }
{
    let _ = memory.store(block, stamp);
    let _ = memory.stale(block);
}

/// The same, of a memory that is moved in and out.
pub fn retire_owned<M: Memory>(mut memory: M, block: u16, stamp: u32) -> M
    ensures { M.Memory.meaning result ≡ after (after (M.Memory.meaning memory) (store block stamp)) (stale block) }
{
    retire(&mut memory, block, stamp);
    memory
}

// The same of the memory over a table, in words of the table: so the check finds by itself what the loan below comes to.
fn retire_flat(flat: &mut Flat<'_>, block: u16, stamp: u32)
    ensures cells { flat.new.table.now ≡ retired flat.old.table.now block stamp }
    ensures named { flat.new.table.ghost_name ≡ flat.old.table.ghost_name }
{
    retire(flat, block, stamp);
}

/// Retires a block of a table. A table that is refused stays as it is.
pub fn retire_in_table(table: &mut [Cell], block: u16, stamp: u32)
    ensures { table.new ≡ retired table.old block stamp }
{
    let mut flat = Flat::over(table);
    retire_flat(&mut flat, block, stamp);
}

// The window is moved into a call and out of it, and the check knows what a lent table ends as only where the lending call's
// result stays in its place. So this function gives the table back.
fn lend_to_window<'a>(
    table: &'a mut [Cell],
    start: u32,
    length: u32,
    block: u16,
    stamp: u32,
) -> &'a mut [Cell]
    ensures value { result.now ≡ retired_in start length table.old block stamp }
    ensures named { result.ghost_name ≡ table.entry.ghost_name }
{
    let window = Window::new(Flat::over(table), start, length);
    let window = retire_owned(window, block, stamp);
    window.into_below().into_table()
}

/// Retires a block of a window over a table. The cells outside the window stay as they are.
pub fn retire_in_window(table: &mut [Cell], start: u32, length: u32, block: u16, stamp: u32)
    ensures { table.new ≡ retired_in start length table.old block stamp }
{
    let _ = lend_to_window(table, start, length, block, stamp);
}
