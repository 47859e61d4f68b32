//! Studies of cores that share a memory.
#![tactic(auto)]

pub mod counts;
pub mod effect;
pub mod quote;
pub mod stages;
mod transfers;
pub mod turn;
pub mod warrant;
