//! What a step does to main memory and to the other cores.
ghost use Rattle.std.specs.Prelude.{◌≡◌};
ghost use Rattle.device.specs.Device.{after};
ghost use Rattle.memory.specs.Meaning.{store};
ghost use Rattle.study.specs.Step.{valid, memory_taking, movement_of, alone_cores, alone_memory, recalled};

use memory::Memory;
use parts::line::Line;
use parts::mark::Mark;
use protocol::weights::Movement;
use row::Row;
use row::message::Message;

/// Stores a stamp in main memory. Every store of a study is made here.
#[inline(always)]
pub(crate) fn store<M: Memory>(memory: &mut M, block: u16, stamp: u32)
    ensures { M.Memory.meaning memory.new ≡ after (M.Memory.meaning memory.old) (store block stamp) }
{
    let _ = memory.store(block, stamp);
}

/// The stamp of a block that is valid in main memory.
#[inline(always)]
pub(crate) fn valid<M: Memory>(memory: &M, block: u16) -> Option<u32>
    ensures { result ≡ valid (M.Memory.meaning memory.now) block }
{
    memory.ask(block).unwrap_or(None)
}

/// A line leaves the caches: modified, it is stored in main memory; shared, it is dropped.
#[inline(always)]
pub(crate) fn leave<M: Memory>(memory: &mut M, out: Option<Line>) -> Movement
    ensures answer { result ≡ movement_of out }
    ensures next { M.Memory.meaning memory.new ≡ memory_taking out (M.Memory.meaning memory.old) }
{
    match out {
        Some(
            Line {
                block,
                mark: Mark::Modified,
                stamp,
            },
        ) => {
            store(memory, block, stamp);
            Movement::Memory
        }
        _ => Movement::Still,
    }
}

// Stores a modified copy that an invalidation met.
fn recall<M: Memory>(memory: &mut M, block: u16, met: Option<u32>)
    ensures { M.Memory.meaning memory.new ≡ recalled block met (M.Memory.meaning memory.old) }
{
    if let Some(stamp) = met {
        store(memory, block, stamp);
    }
}

/// A core becomes the only holder of a block, which it is already where its copy is modified.
pub(crate) fn claim<R: Row, M: Memory>(
    row: &mut R,
    memory: &mut M,
    message: Message,
    modified: bool,
)
    ensures row { R.Row.cores row.new ≡ alone_cores modified message.sender message.block (R.Row.cores row.old) }
    ensures memory { M.Memory.meaning memory.new ≡ alone_memory modified message.sender message.block (R.Row.cores row.old) (M.Memory.meaning memory.old) }
{
    if modified {
        return;
    }
    let met = row.invalidate(0, message);
    recall(memory, message.block, met);
    let _ = memory.stale(message.block);
}
