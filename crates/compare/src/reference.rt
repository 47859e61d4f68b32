//! The rules of scenarios, studies and reports once more, written from docs/MODEL.md, docs/REFUSALS.md and docs/SCENARIO.md
//! alone and in another shape than the simulator: plain lists and no traits. On purpose nothing here is proved against the
//! simulator's definitions. Its worth is that it is another text; what is known of it is that it is safe and ends, and what
//! this program shows.

mod blocks;
mod caches;
pub(crate) mod paper;
pub(crate) mod plain;
mod reading;
pub(crate) mod steps;
mod telling;

pub(crate) use reading::SCENARIO;
pub(crate) use telling::{Teller, tell_quote, tell_turn};
