//! What a memory refuses.
ghost use Rattle.std.specs.Prelude.{◌≡◌};
ghost use Rattle.memory.specs.Refusals.{refusal_number};

#[derive(Clone, Copy, PartialEq, Eq, Debug)]
pub enum Refusal {
    /// The block is not below the memory's size.
    NoSuchBlock,
    /// The block table has no cell, or more than 4,096.
    BadTable,
}

/// The number by which a report names the refusal.
impl From<Refusal> for u8 {
    ghost from_gives = { λ r n. n ≡ refusal_number r };

    fn from(refusal: Refusal) -> u8 {
        match refusal {
            Refusal::NoSuchBlock => 6,
            Refusal::BadTable => 13,
        }
    }
}
