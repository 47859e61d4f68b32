//! The direct-mapped tier.
#![tactic(auto)]

pub mod direct;
