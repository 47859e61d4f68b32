//! What a run answers to a call.
ghost use Rattle.std.specs.Prelude.{◌≡◌};
ghost use Rattle.protocol.specs.Answers.{word_of, value_of, spelling};

use crate::refusal::Refusal;

/// The answer to an accepted call.
#[derive(Clone, Copy, PartialEq, Eq, Debug)]
pub enum Answer {
    /// The core waits for the block.
    Waits(u16),
    /// The block was brought to the core, which is due.
    Brought(u16),
    /// The core read the copy with this stamp.
    Read(u32),
    /// The core wrote, and its copy has this stamp.
    Wrote(u32),
    /// The core's modified copy of the block was stored in memory.
    Flushed(u16),
    /// Whether there was a modified copy to store.
    Committed(bool),
}

/// The word by which a report names what became of a call.
#[derive(Clone, Copy, PartialEq, Eq, Debug)]
pub enum Word {
    Waits,
    Brought,
    Read,
    Wrote,
    Flushed,
    Committed,
    Refused,
}

/// The word for what became of a call.
impl From<Result<Answer, Refusal>> for Word {
    ghost from_gives = { λ o w. w ≡ word_of o };

    fn from(outcome: Result<Answer, Refusal>) -> Word {
        match outcome {
            Ok(Answer::Waits(_)) => Word::Waits,
            Ok(Answer::Brought(_)) => Word::Brought,
            Ok(Answer::Read(_)) => Word::Read,
            Ok(Answer::Wrote(_)) => Word::Wrote,
            Ok(Answer::Flushed(_)) => Word::Flushed,
            Ok(Answer::Committed(_)) => Word::Committed,
            Err(_) => Word::Refused,
        }
    }
}

/// The value that stands beside the word: a stamp, a block, 0 or 1, or the number of the refusal.
// No `From`: neither a `Result` nor `u32` is a type of this crate.
pub fn value_of(outcome: Result<Answer, Refusal>) -> u32
    ensures { result ≡ value_of outcome }
{
    match outcome {
        Ok(Answer::Waits(block) | Answer::Brought(block) | Answer::Flushed(block)) => {
            u32::from(block)
        }
        Ok(Answer::Read(stamp) | Answer::Wrote(stamp)) => stamp,
        Ok(Answer::Committed(stored)) => u32::from(stored),
        Err(refusal) => u32::from(u8::from(refusal)),
    }
}

impl Word {
    /// The word as a report spells it.
    // Bytes and no `Display`, by a rule of the project: words are fixed byte strings.
    pub fn bytes(self) -> &'static [u8]
        ensures { result.now ≡ spelling self }
    {
        match self {
            Word::Waits => b"waits",
            Word::Brought => b"brought",
            Word::Read => b"read",
            Word::Wrote => b"wrote",
            Word::Flushed => b"flushed",
            Word::Committed => b"committed",
            Word::Refused => b"refused",
        }
    }
}
