//! Tiers of a few lines ranked by age, under a replacement policy.
#![tactic(auto)]

pub mod policy;
pub mod queue;
pub mod ranked;
