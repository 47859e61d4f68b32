//! The set-associative tier.
#![tactic(auto)]

pub mod set_associative;
