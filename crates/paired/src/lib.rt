//! Two placements, compared under one schedule.
#![tactic(auto)]

pub mod comparison;
pub mod single;
