//! A tier of a few lines, any block in any line, ranked by age.
ghost use Rattle.std.specs.Prelude.{◌≡◌, ◌<◌, ◌≤◌, true, [], ◌∷◌, ◌++◌, IfOk, None, vec_len, vec_capacity};
ghost use Rattle.tier.specs.Building.{Builds};
ghost use Rattle.ranks.specs.Ranks.{find, without, ousted, spared, ranked, asked, apart};
ghost use Rattle.ranked.specs.Ages.{OldestLeaves};

use crate::policy::Replacement;
use parts::line::Line;
use parts::refusal::{BuildError, Refusal};
use std::alloc::{AllocError, Global};
use tier::Tier;

/// The most ways that a ranked tier may have.
pub const MOST_WAYS: usize = 16;

#[derive(Drop)]
pub struct Ranked<P> {
    policy: P,
    ways: usize,
    // The oldest first. No call allocates: there is room for every way from the start.
    held: Vec<Line>,
    ghost some: { 1 ≤ ways },
    ghost room: { ways ≤ vec_capacity held },
    ghost fit: { vec_len held ≤ ways },
    ghost alone: { apart held.items ≡ true },
}

impl<P: Replacement + Drop> Ranked<P> {
    ghost use Rattle.ranked.specs.Ranked.{ranked_of};
    ghost use Rattle.ranked.specs.Private.{Alike, Place};

    /// An empty tier of 1 to 16 ways. A put into a full tier gives out the block that was put, or by some policies touched,
    /// longest ago.
    pub fn with_policy(
        heap: Global,
        policy: P,
        ways: usize,
    ) -> Result<Ranked<P>, BuildError<Ranked<P>>>
        ensures built { Builds (ranked_of P.Replacement.renewing) result (asked (P.Replacement.renewing policy) ways) }
        ensures law { IfOk result (λ t. OldestLeaves (P.Replacement.renewing policy) 1 ways (ranked_of P.Replacement.renewing t)) }
    {
        Ranked::sized(heap, policy, ways)
    }

    // The code apart from the law of whole runs, so that an edit of it is refused for its own sake.
    fn sized(heap: Global, policy: P, ways: usize) -> Result<Ranked<P>, BuildError<Ranked<P>>>
        ensures { Builds (ranked_of P.Replacement.renewing) result (asked (P.Replacement.renewing policy) ways) }
    {
        let fits = (1..=MOST_WAYS).contains(&ways);
        BuildError::answer(
            fits,
            Ranked::cleared(heap, policy, if fits { ways } else { 1 }),
        )
    }

    fn cleared(heap: Global, policy: P, ways: usize) -> Result<Ranked<P>, AllocError>
        requires { 1 ≤ ways }
        ensures { IfOk result (λ t. ranked_of P.Replacement.renewing t ≡ ranked (P.Replacement.renewing policy) ways []) }
    {
        let held = Vec::with_capacity(heap, ways)?;
        Ok(Ranked { policy, ways, held })
    }

    // Where a block stands.
    fn position(&self, block: u16) -> Option<usize>
        ensures { Place self.now.held.items block result }
    {
        self.held.iter().position(|line| line.block == block)
    }

    fn remove(&mut self, block: u16) -> Option<Line>
        ensures answer { result ≡ find self.old.held.items block }
        ensures items { self.new.held.items ≡ without self.old.held.items block }
        ensures alike { Alike self.old self.new }
    {
        let place = self.position(block)?;
        Some(self.held.remove(place))
    }

    // Adds a line as the youngest.
    fn append(&mut self, line: Line)
        requires fresh { find self.old.held.items line.block ≡ None }
        requires room { vec_len self.old.held < self.old.ways }
        ensures items { self.new.held.items ≡ self.old.held.items ++ line ∷ [] }
        ensures alike { Alike self.old self.new }
    {
        self.held.push_reserved(line);
    }

    // Gives out the oldest line, where all ways are taken.
    fn make_room(&mut self) -> Option<Line>
        ensures answer { result ≡ ousted self.old.ways self.old.held.items }
        ensures items { self.new.held.items ≡ spared self.old.ways self.old.held.items }
        ensures room { vec_len self.new.held < self.new.ways }
        ensures alike { Alike self.old self.new }
    {
        if self.held.len() < self.ways {
            return None;
        }
        Some(self.held.remove(0))
    }
}

impl<P: Replacement + Drop> Tier for Ranked<P> {
    ghost use Rattle.ranked.specs.Ranked.{ranked_of};
    ghost use Rattle.ranked.specs.RankedLaws.{ranked-lawful};

    ghost meaning = { ranked_of P.Replacement.renewing };

    ghost lawful = { λ t. ranked-lawful (P.Replacement.renewing t.policy) t.ways t.held.items t.alone };

    fn depth(&self) -> u32 {
        1
    }

    fn look(&self, block: u16) -> Option<(u32, u32, u32)> {
        let place = self.position(block)?;
        Some(self.held[place].shown())
    }

    fn put(&mut self, line: Line) -> Result<Option<Line>, Refusal> {
        if self.position(line.block).is_some() {
            return Err(Refusal::AlreadyHeld);
        }
        let out = self.make_room();
        self.append(line);
        Ok(out)
    }

    fn take(&mut self, block: u16) -> Option<(u32, u32, u32)> {
        self.remove(block).map(Line::shown)
    }

    fn change(&mut self, line: Line) -> Result<(), Refusal> {
        let place = self.position(line.block).ok_or(Refusal::NotHeld)?;
        self.held[place] = line;
        Ok(())
    }

    fn touch(&mut self, block: u16) -> Result<(), Refusal> {
        let place = self.position(block).ok_or(Refusal::NotHeld)?;
        if self.policy.renews() {
            let line = self.held.remove(place);
            self.append(line);
        }
        Ok(())
    }

    fn clear(&mut self) {
        self.held.clear();
    }
}
