//! What a core does with a block, and where it stands with it.
ghost use Rattle.std.specs.Prelude.{◌≡◌};
ghost use Rattle.protocol.specs.Accesses.{block_of};

/// A read or a write of one block.
#[derive(Clone, Copy, PartialEq, Eq, Debug)]
pub enum Access {
    Read(u16),
    Write(u16),
}

impl Access {
    /// The block that is read or written.
    pub fn block(self) -> u16
        ensures { result ≡ block_of self }
    {
        match self {
            Access::Read(block) | Access::Write(block) => block,
        }
    }
}

/// A core is ready for a call, waits until it can fetch a block, or is due to resume its access.
#[derive(Clone, Copy, PartialEq, Eq, Debug)]
pub enum CoreState {
    Ready,
    Waiting(Access),
    Due(Access),
}
