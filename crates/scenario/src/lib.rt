//! Scenarios: a text of weights, placements and steps, read without a heap.
#![tactic(auto)]

mod change;
pub mod fault;
pub mod layout;
pub mod reader;
pub mod steps;
pub mod text;
pub mod texts;
