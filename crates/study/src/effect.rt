//! What an accepted call did.
use protocol::answer::Answer;
use protocol::weights::Movement;

/// What an accepted step performed. Nothing is a case beside the two: the definitions match on three.
#[derive(Clone, Copy, PartialEq, Eq, Debug)]
pub enum Performed {
    Nothing,
    Read,
    Write,
}

/// What a call performed, the two movements that it is charged, and its answer.
#[derive(Clone, Copy, PartialEq, Eq, Debug)]
pub struct Effect {
    pub performed: Performed,
    pub moved: Movement,
    pub left: Movement,
    pub answer: Answer,
}
