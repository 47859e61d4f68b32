//! The calls of a run.
ghost use Rattle.std.specs.Prelude.{◌≡◌};
ghost use Rattle.protocol.specs.Calls.{core_of, fits_in};

// Core and block are two fields, so that a schedule reads `Call::Read(0, 3)`.
/// A call names a core and, but for fetch and resume, a block.
#[derive(Clone, Copy, PartialEq, Eq, Debug)]
pub enum Call {
    Read(u16, u16),
    Write(u16, u16),
    Fetch(u16),
    Resume(u16),
    Flush(u16, u16),
    Commit(u16, u16),
}

impl Call {
    /// The core that the call names.
    pub fn core(self) -> u16
        ensures { result ≡ core_of self }
    {
        match self {
            Call::Read(core, _)
            | Call::Write(core, _)
            | Call::Fetch(core)
            | Call::Resume(core)
            | Call::Flush(core, _)
            | Call::Commit(core, _) => core,
        }
    }

    /// Whether a memory of so many blocks has the block that the call names, if it names one.
    pub fn fits_in(self, size: u32) -> bool
        ensures { result ≡ fits_in size self }
    {
        match self {
            Call::Read(_, block)
            | Call::Write(_, block)
            | Call::Flush(_, block)
            | Call::Commit(_, block) => u32::from(block) < size,
            Call::Fetch(_) | Call::Resume(_) => true,
        }
    }
}
