//! The plain values that a tier takes and gives, and the place of a block among lines or sets.
#![tactic(auto)]

pub mod line;
pub mod mark;
pub mod place;
pub mod refusal;
