//! What a tier refuses.
ghost use Rattle.std.specs.Prelude.{◌≡◌};
ghost use Rattle.parts.specs.Refusals.{refusal_number, build_number, tier_of, answer_of};

use std::alloc::AllocError;

#[derive(Clone, Copy, PartialEq, Eq, Debug)]
pub enum Refusal {
    /// A put of a block that is held.
    AlreadyHeld,
    /// A change or a touch of a block that is not held.
    NotHeld,
}

/// The number by which a report names the refusal.
impl From<Refusal> for u8 {
    ghost from_gives = { λ refusal number. number ≡ refusal_number refusal };

    fn from(refusal: Refusal) -> u8 {
        match refusal {
            Refusal::AlreadyHeld => 10,
            Refusal::NotHeld => 11,
        }
    }
}

/// Why a tier was not made as asked.
#[derive(Drop)]
pub enum BuildError<T> {
    /// A size is out of range. The tier that was made instead, if there was memory for it, has one line, empty.
    BadSize(Option<T>),
    /// The sizes are in range, and the allocator had no memory.
    NoMemory,
}

impl<T> BuildError<T> {
    /// The number by which a report names the refusal; want of memory has none.
    pub fn number(&self) -> Option<u8>
        ensures { result ≡ build_number self.now }
    {
        match self {
            BuildError::BadSize(_) => Some(12),
            BuildError::NoMemory => None,
        }
    }

    /// The tier that was made all the same, if there was memory for it. It is for sizes that are known to be in range: of others it
    /// answers the tier of one line, and nothing is left of refusal 12.
    pub fn into_tier(self) -> Result<T, AllocError>
    where
        T: Drop,
        ensures { result ≡ tier_of self }
    {
        match self {
            BuildError::BadSize(tier) => tier.ok_or(AllocError),
            BuildError::NoMemory => Err(AllocError),
        }
    }

    /// What a constructor answers of the tier that it made, or had no memory for: whether the sizes asked for fit decides alone
    /// whether they are refused.
    pub fn answer(fits: bool, made: Result<T, AllocError>) -> Result<T, BuildError<T>>
        ensures { result ≡ answer_of fits made }
    {
        if !fits {
            return Err(BuildError::BadSize(made.ok()));
        }
        made.map_err(|_| BuildError::NoMemory)
    }
}
