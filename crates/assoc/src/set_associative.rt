//! A tier of sets of a few ways: each block has one set where it may stand.
ghost use Rattle.std.specs.Prelude.{◌≡◌, ◌≤◌, true, IfOk, vec_len};
ghost use Rattle.tier.specs.Building.{Builds};
ghost use Rattle.ranked.specs.Ages.{OldestLeaves};
ghost use Rattle.assoc.specs.Sets.{index, empty, asked, Placed, lrus_of};

use parts::line::Line;
use parts::place::place_of;
use parts::refusal::{BuildError, Refusal};
use ranked::policy::Lru;
use ranked::ranked::Ranked;
use std::alloc::{AllocError, Global};
use tier::Tier;

/// The most sets that a tier may have.
pub const MOST_SETS: usize = 16;

/// The most ways that a set may have.
pub const MOST_WAYS: usize = 4;

#[derive(Drop)]
pub struct SetAssociative {
    sets: Vec<Ranked<Lru>>,
    ghost some: { 1 ≤ vec_len sets },
    ghost placed: { Placed (lrus_of sets.items) },
}

impl SetAssociative {
    ghost use Rattle.assoc.specs.SetAssociative.{sets_of, meaning_of};

    /// An empty tier of 1 to 16 sets of 1 to 4 ways. Block n belongs to set n mod `sets`; a put into a full set gives out the
    /// block of that set that was put or touched longest ago.
    pub fn new(
        heap: Global,
        sets: usize,
        ways: usize,
    ) -> Result<SetAssociative, BuildError<SetAssociative>>
        ensures built { Builds meaning_of result (asked sets ways) }
        ensures law { IfOk result (λ t. OldestLeaves true sets ways (meaning_of t)) }
    {
        SetAssociative::sized(heap, sets, ways)
    }

    // The code apart from the law of whole runs, so that an edit of it is refused for its own sake.
    fn sized(
        heap: Global,
        sets: usize,
        ways: usize,
    ) -> Result<SetAssociative, BuildError<SetAssociative>>
        ensures { Builds meaning_of result (asked sets ways) }
    {
        let fits = (1..=MOST_SETS).contains(&sets) && (1..=MOST_WAYS).contains(&ways);
        let (sets, ways) = if fits { (sets, ways) } else { (1, 1) };
        BuildError::answer(fits, SetAssociative::cleared(heap, sets, ways))
    }

    fn cleared(heap: Global, count: usize, ways: usize) -> Result<SetAssociative, AllocError>
        requires { (1 ≤ count) × (1 ≤ ways) × (ways ≤ 4) }
        ensures { IfOk result (λ t. sets_of t ≡ empty count ways) }
    {
        let mut sets = Vec::new(heap);
        for _made in 0..count {
            let set = Ranked::with_policy(heap, Lru, ways).or_else(BuildError::into_tier)?;
            sets.push(set)?;
        }
        Ok(SetAssociative { sets })
    }

    // The number of the set of a block.
    fn set_of(&self, block: u16) -> usize
        ensures { result ≡ index (sets_of self.now) block }
    {
        place_of(block, self.sets.len())
    }
}

#[tactic(auto, using(crate::specs::Lrus::set_means))]
impl Tier for SetAssociative {
    ghost use Rattle.assoc.specs.SetAssociative.{sets_of, meaning_of};
    ghost use Rattle.assoc.specs.SetsLaws.{sets_lawful};
    ghost use Rattle.assoc.specs.Lrus.{good_of};

    ghost meaning = { meaning_of };

    ghost lawful = { λ t. sets_lawful (sets_of t) (good_of t) };

    fn depth(&self) -> u32 {
        1
    }

    fn look(&self, block: u16) -> Option<(u32, u32, u32)> {
        self.sets[self.set_of(block)].look(block)
    }

    fn put(&mut self, line: Line) -> Result<Option<Line>, Refusal> {
        let set = self.set_of(line.block);
        self.sets[set].put(line)
    }

    fn take(&mut self, block: u16) -> Option<(u32, u32, u32)> {
        let set = self.set_of(block);
        self.sets[set].take(block)
    }

    fn change(&mut self, line: Line) -> Result<(), Refusal> {
        let set = self.set_of(line.block);
        self.sets[set].change(line)
    }

    fn touch(&mut self, block: u16) -> Result<(), Refusal> {
        let set = self.set_of(block);
        self.sets[set].touch(block)
    }

    fn clear(&mut self) {
        for set in self.sets.iter_mut() {
            set.clear();
        }
    }
}
