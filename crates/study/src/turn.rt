//! One line of a schedule.
ghost use Rattle.std.specs.Prelude.{◌≡◌, None};

use protocol::answer::Answer;
use protocol::call::Call;
use protocol::refusal::Refusal;

/// What became of a call: its answer, and the run's total after it.
#[derive(Clone, Copy, PartialEq, Eq, Debug)]
pub struct Played {
    pub answer: Result<Answer, Refusal>,
    pub total: u64,
}

/// A call, and once it was played what became of it.
#[derive(Clone, Copy, PartialEq, Eq, Debug)]
pub struct Turn {
    pub call: Call,
    pub played: Option<Played>,
}

impl Turn {
    /// A call that was not played yet.
    pub fn new(call: Call) -> Turn
        ensures { result ≡ record { call = call; played = None } }
    {
        Turn { call, played: None }
    }
}
