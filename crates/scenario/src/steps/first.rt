//! The steps of a text, one after another.
ghost use Rattle.std.specs.Prelude.{◌≡◌, ◌<◌, ◌≤◌, IfSome, MatchOption, length, [], ◌∷◌};
ghost use Rattle.scenario.specs.Steps.{made, calls_in, bytes_left};

use crate::change::{Change, line_change};
use crate::fault::Fault;
use crate::layout::REFERENCES;
use crate::steps::Steps;
use fields::{LINE_FEED, cut};
use protocol::call::Call;
use records::keyword::Section;

// The call that a line makes, if it makes one.
fn made(change: Result<Change, Fault>) -> Option<Call>
    ensures { result ≡ made change }
{
    match change {
        Ok(Change::Make(call)) => Some(call),
        _ => None,
    }
}

impl<'t> Steps<'t> {
    pub(crate) fn at(rest: &'t [u8], placements: &'t [u32; REFERENCES]) -> Steps<'t>
        requires { length rest.now ≤ 65536 }
        ensures rest { result.rest.now ≡ rest.now }
        ensures placements { result.placements.now ≡ placements.now }
    {
        Steps { rest, placements }
    }

    /// The next call, and the steps after it; none at the end.
    #[tactic(auto, using(crate::proofs::Calls::calls_first, crate::proofs::Calls::calls_end, crate::proofs::Calls::calls_last))]
    pub fn first(self) -> Option<(Call, Steps<'t>)>
        ensures next { MatchOption result (calls_in self.entry ≡ []) (λ x. calls_in self.entry ≡ x.0 ∷ calls_in x.1) }
        ensures shorter { IfSome result (λ x. bytes_left x.1 < bytes_left self.entry) }
    {
        let Steps { rest, placements } = self;
        let (bytes, more) = cut(rest, LINE_FEED)?;
        // the number of the line tells where a fault is, and a line of a text that was read has none
        let call = made(line_change(bytes, 1, Section::Steps, placements))?;
        Some((call, Steps::at(more, placements)))
    }
}
