//! A study over a block table that the caller lends, and what the table holds when it comes back.
#![tactic(auto)]

ghost use Rattle.std.specs.Prelude.{◌≡◌, ℕ};
ghost use Rattle.lent_study.specs.Lent.{LentStudy};

use memory::cell::Cell;
use memory::flat::Flat;
use protocol::refusal::Refusal;
use protocol::weights::Prices;
use row::Row;
use study::quote::Quote;
use study::stages::Draft;
use study::turn::Turn;

// The study, which gives the table back: the memory is moved into it and out of it, and the check knows what a lent table ends
// as only where the lending call's result stays in its place.
fn lend<'a, R: Row + Drop>(
    row: R,
    table: &'a mut [Cell],
    prices: Prices,
    schedule: &mut [Turn],
) -> (&'a mut [Cell], Result<Quote, Refusal>)
    ensures named { result.0.ghost_name ≡ table.entry.ghost_name }
    ensures study { LentStudy prices (R.Row.cores row) table.entry.ghost_name table.old result.0.now schedule.old schedule.new result.1 }
{
    let mut draft = Draft::new(row, Flat::over(table));
    if let Err(refusal) = draft.weigh(prices) {
        let (_, memory) = draft.into_parts();
        return (memory.into_table(), Err(refusal));
    }
    match draft.simulate(schedule) {
        Ok(settled) => (settled.memory.into_table(), Ok(settled.quote)),
        Err(refused) => {
            let (_, memory) = refused.draft.into_parts();
            (memory.into_table(), Err(refused.refusal))
        }
    }
}

/// Weighs, opens, plays and settles a study whose memory is the caller's table. What the table then holds follows from the
/// definitions, whatever it held; a refused study leaves it as it was, and one that is not refused is warranted.
pub fn simulate_in_table<R: Row + Drop>(
    row: R,
    table: &mut [Cell],
    prices: Prices,
    schedule: &mut [Turn],
) -> Result<Quote, Refusal>
    ensures { (a : ℕ) × LentStudy prices (R.Row.cores row) a table.old table.new schedule.old schedule.new result }
{
    let (_, quote) = lend(row, table, prices, schedule);
    quote
}
