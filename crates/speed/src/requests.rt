//! What the benchmark passes and takes, in plain numbers.
ghost use Rattle.std.specs.Prelude.{◌≡◌};
ghost use Rattle.speed.specs.Requests.{call_of, tally_in};

use protocol::call::Call;
use study::quote::Quote;

/// A call: what kind, the core, and the block, which fetch and resume do not name.
#[repr(C)]
#[derive(Clone, Copy)]
pub struct Request {
    pub kind: u16,
    pub core: u16,
    pub block: u16,
}

/// What a schedule came to.
#[repr(C)]
#[derive(Clone, Copy)]
pub struct Tally {
    pub accesses: u32,
    pub total: u64,
}

// A kind above 5 counts as 5.
impl From<Request> for Call {
    ghost from_gives = { λ request call. call ≡ call_of request };

    fn from(request: Request) -> Call {
        let Request { kind, core, block } = request;
        match kind {
            0 => Call::Read(core, block),
            1 => Call::Write(core, block),
            2 => Call::Fetch(core),
            3 => Call::Resume(core),
            4 => Call::Flush(core, block),
            _ => Call::Commit(core, block),
        }
    }
}

impl From<Quote> for Tally {
    ghost from_gives = { λ quote tally. tally ≡ tally_in quote };

    fn from(quote: Quote) -> Tally {
        Tally {
            accesses: quote.accesses,
            total: quote.total,
        }
    }
}
