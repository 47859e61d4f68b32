//! compare: plays thousands of scenarios and paired studies by the simulator and by a reference that was written from docs/
//! alone, and says how many of each sort agree. What is drawn is the same in every run. If one differs it is shown in full,
//! and the exit status is 1.
#![tactic(auto)]

mod damage;
mod edges;
mod families;
mod limit;
mod machines;
mod random;
mod reference;
mod score;
mod script;
mod trial;

use anyhow::anyhow;
use score::Score;

fn main(rt: HostRuntime) -> anyhow::Result<()> {
    let mut score = Score::new(rt.alloc());
    families::run(&rt, &mut score);
    let Score {
        differing,
        failure,
        ..
    } = score;
    match failure {
        Some(error) => Err(error.into()),
        None if differing > 0 => Err(anyhow!("{differing} cases differ")),
        None => Ok(()),
    }
}
