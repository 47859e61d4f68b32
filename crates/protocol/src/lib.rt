//! What is said to a run and what it answers: calls, answers, refusals, the states of a core, and weights.
#![tactic(auto)]

pub mod access;
pub mod answer;
pub mod call;
pub mod refusal;
pub mod weights;
