//! A study is first a draft, then a run, then settled.
use crate::counts::Counts;
use crate::quote::Quote;
use protocol::refusal::Refusal;
use protocol::weights::Weights;

pub mod opening;
pub mod play;
pub mod questions;
pub mod settling;
pub mod steps;

/// A study that has not begun: a row, a memory and weights.
#[derive(Drop)]
pub struct Draft<R, M> {
    row: R,
    memory: M,
    weights: Weights,
}

/// A draft that was not opened, whole as it was, and why.
#[derive(Drop)]
pub struct RefusedDraft<R, M> {
    pub refusal: Refusal,
    pub draft: Draft<R, M>,
}

/// A study that takes steps.
#[derive(Drop)]
pub struct Run<R, M> {
    row: R,
    memory: M,
    weights: Weights,
    counts: Counts,
}

/// A study that is over: row and memory as the run left them, and what it came to.
#[derive(Drop)]
pub struct Settled<R, M> {
    pub row: R,
    pub memory: M,
    pub quote: Quote,
}
