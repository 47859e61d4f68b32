//! The simulator as C calls it, for the benchmark: two functions. Neither has a precondition. An answer of
//! `false` or of 0 may also say that the allocator has no memory: no contract can say when an allocation succeeds.
#![tactic(auto)]

pub mod eight;
pub mod exports;
pub mod play;
pub mod requests;
pub mod told;
