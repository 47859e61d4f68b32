//! What a study refuses.
ghost use Rattle.std.specs.Prelude.{◌≡◌};
ghost use Rattle.protocol.specs.Refusals.{refusal_number};

/// Why a study does not accept what it is given.
#[derive(Clone, Copy, PartialEq, Eq, Debug)]
pub enum Refusal {
    /// The row has more than eight cores.
    TooManyCores,
    /// The memory has no block.
    NoBlocks,
    /// A weight is above 1,000.
    WeightTooHigh,
    /// A million steps were accepted.
    TooManySteps,
    /// The row has no core of that number.
    NoSuchCore,
    /// The memory has no block of that number.
    NoSuchBlock,
    /// The core is not in the state that the call is for.
    WrongState,
    /// The block to fetch is stale in memory.
    StaleBlock,
    /// The core does not hold the block modified, or no other core waits for it.
    NotOwed,
}

/// The number by which a report names the refusal.
// Each enum of refusals has an impl of its own: they stand in three crates, and the gate refuses one that our macro wrote.
impl From<Refusal> for u8 {
    ghost from_gives = { λ r n. n ≡ refusal_number r };

    fn from(refusal: Refusal) -> u8 {
        match refusal {
            Refusal::TooManyCores => 1,
            Refusal::NoBlocks => 2,
            Refusal::WeightTooHigh => 3,
            Refusal::TooManySteps => 4,
            Refusal::NoSuchCore => 5,
            Refusal::NoSuchBlock => 6,
            Refusal::WrongState => 7,
            Refusal::StaleBlock => 8,
            Refusal::NotOwed => 9,
        }
    }
}
