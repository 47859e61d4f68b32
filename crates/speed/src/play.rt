//! A schedule, played on any row over a flat memory.
ghost use Rattle.std.specs.Prelude.{◌≡◌, map, IfSome};
ghost use Rattle.study.specs.Opening.{opening};
ghost use Rattle.study.specs.Play.{played};
ghost use Rattle.study.specs.Settling.{simulated};
ghost use Rattle.study.specs.Stages.{run_of};
ghost use Rattle.speed.specs.Requests.{call_of};
ghost use Rattle.speed.specs.Played.{weights, tally_of, Played};

use crate::requests::{Request, Tally};
use memory::Memory;
use memory::cell::UNSET;
use memory::flat::Flat;
use protocol::call::Call;
use protocol::weights::Prices;
use row::Row;
use std::alloc::Global;
use study::stages::{Draft, Run};

const WEIGHTS: Prices = Prices {
    w1: 1,
    w2: 10,
    w3: 20,
    w4: 30,
    wm: 100,
};

// Makes the calls that are asked for, in order.
fn make<R: Row, M: Memory>(run: &mut Run<R, M>, requests: &[Request])
    ensures { run_of R.cores M.meaning run.new ≡ played (run_of R.cores M.meaning run.old) (map call_of requests.now) }
{
    for request in requests {
        let _ = run.step(Call::from(*request));
    }
}

// What the calls that are asked for come to in a study of this row and this memory; none where it is not opened.
#[tactic(auto, unfolding(protocol::specs::Prices::is_dear))]
fn settle<R: Row + Drop, M: Memory + Drop>(row: R, memory: M, requests: &[Request]) -> Option<Tally>
    ensures { result ≡ tally_of (simulated (opening (R.Row.cores row) (M.Memory.meaning memory) weights) (map call_of requests.now)) }
{
    let mut draft = Draft::new(row, memory);
    let _ = draft.weigh(WEIGHTS);
    let mut run = draft.open().ok()?;
    make(&mut run, requests);
    Some(Tally::from(run.settle().quote))
}

/// Plays what is asked for over a memory of so many blocks; none where the study is not opened, or for want of memory.
pub(crate) fn play<R: Row + Drop>(
    heap: Global,
    row: R,
    blocks: u16,
    requests: &[Request],
) -> Option<Tally>
    ensures { IfSome result (Played (R.Row.cores row) blocks (map call_of requests.now)) }
{
    let mut table = vec![in heap; UNSET; usize::from(blocks)].ok()?;
    settle(row, Flat::over(table.as_mut_slice()), requests)
}
