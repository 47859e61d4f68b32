//! A scenario, from its bytes to its report.
#![tactic(auto)]

mod begin;
mod output;
mod play;
pub mod simulate;
pub mod telling;
