//! The lines of reports, byte for byte.
#![tactic(auto)]

pub mod line;
mod lines;
pub mod paired_lines;
