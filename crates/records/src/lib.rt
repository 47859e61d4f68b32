//! Lines of a scenario, as records whose fields are parts of the text.
#![tactic(auto)]

pub mod fault;
pub mod keyword;
pub mod record;
