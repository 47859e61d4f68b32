//! Replacement policies: which use of a block makes it the youngest.
ghost use Rattle.std.specs.Prelude.{◌≡◌, Bool, true, false};

pub trait Replacement {
    /// Whether a touch makes a block the youngest, as a put does.
    ghost renewing: { Self → Bool };

    fn renews(&self) -> bool
        ensures { result ≡ renewing self.now };
}

/// First in, first out: the block that was put longest ago leaves.
#[derive(Clone, Copy, PartialEq, Eq, Debug)]
pub struct Fifo;

impl Replacement for Fifo {
    ghost renewing = { λ _. false };

    fn renews(&self) -> bool {
        false
    }
}

/// Least recently used: the block that was put or touched longest ago leaves.
#[derive(Clone, Copy, PartialEq, Eq, Debug)]
pub struct Lru;

impl Replacement for Lru {
    ghost renewing = { λ _. true };

    fn renews(&self) -> bool {
        true
    }
}
