//! A profile of one core: where in its caches each access is served.
#![tactic(auto)]

ghost use Rattle.std.specs.Prelude.{◌≡◌, ℕ, false, List, [], ◌∷◌};
ghost use Rattle.device.specs.Device.{after};
ghost use Rattle.tier.specs.Meaning.{clear, depth_of};
ghost use Rattle.profiling.specs.Access.{accessed, answer, place_of, counted, count_of};
ghost use Rattle.profiling.specs.Resident.{HitsTold};
ghost use Rattle.profiling.specs.Tallies.{CountsAll};

use moves::{bring_up, put_block};
use parts::line::Line;
use parts::mark::Mark;
use tier::Tier;

/// How an access was served.
#[derive(Clone, Copy, PartialEq, Eq, Debug)]
pub struct Access {
    /// The cache level that had the block; none for a miss.
    pub level: Option<u32>,
    /// The block that left the caches to make room.
    pub left: Option<u16>,
}

/// The caches of one core, and how many accesses each level served.
#[derive(Drop)]
pub struct Profile<T> {
    tier: T,
    // The misses first, then the hits of levels 1 to 4: one array, as the contract of `new` shows it. A count stops at the
    // largest number that fits.
    counts: [u64; 5],
}

// Where the accesses that a level served are counted, or, for none, the misses.
fn place(level: Option<u32>) -> Option<usize>
    ensures { result ≡ place_of level }
{
    match level {
        None => Some(0),
        // `as` loses nothing: proved
        Some(level @ 1..=4) => Some(level as usize),
        Some(_) => None,
    }
}

// One access of a block.
fn serve<T: Tier>(tier: &mut T, block: u16) -> Access
    ensures answer { result ≡ answer (T.Tier.meaning tier.old) block }
    ensures next { T.Tier.meaning tier.new ≡ accessed (T.Tier.meaning tier.old) block }
{
    let held = tier.look(block);
    let out = match held {
        None => put_block(
            tier,
            Line {
                block,
                mark: Mark::Shared,
                stamp: 0,
            },
        ),
        Some(held) => bring_up(tier, block, held),
    };
    Access {
        level: held.map(|(_, _, level)| level),
        left: out.map(|line| line.block),
    }
}

impl<T: Tier> Profile<T> {
    /// The profile of a core whose caches are cleared. From then on an access hits just where its block was accessed before and
    /// has not left since, and each count is the number of accesses that its level served, or that missed.
    pub fn new(tier: T) -> Profile<T>
        ensures tier { T.Tier.meaning result.tier ≡ after (T.Tier.meaning tier) clear }
        ensures counts { result.counts ≡ 0 ∷ 0 ∷ 0 ∷ 0 ∷ 0 ∷ [] }
        ensures law { (ns : List ℕ) → HitsTold (T.Tier.meaning result.tier) (λ _. false) ns }
        ensures tally { CountsAll (T.Tier.meaning result.tier) result.counts }
    {
        Profile::idle(tier)
    }

    // The code apart from the laws of whole runs, so that an edit of it is refused for its own sake.
    fn idle(mut tier: T) -> Profile<T>
        ensures tier { T.Tier.meaning result.tier ≡ after (T.Tier.meaning tier) clear }
        ensures counts { result.counts ≡ 0 ∷ 0 ∷ 0 ∷ 0 ∷ 0 ∷ [] }
    {
        tier.clear();
        Profile {
            tier,
            counts: [0; 5],
        }
    }

    /// Accesses a block: a miss fills it in, and a hit brings it up to level 1.
    pub fn access(&mut self, block: u16) -> Access
        ensures answer { result ≡ answer (T.Tier.meaning self.old.tier) block }
        ensures next { T.Tier.meaning self.new.tier ≡ accessed (T.Tier.meaning self.old.tier) block }
        ensures counts { self.new.counts ≡ counted self.old.counts result.level }
    {
        let access = serve(&mut self.tier, block);
        if let Some(place) = place(access.level) {
            self.counts[place] = self.counts[place].saturating_add(1);
        }
        access
    }

    /// How many levels the caches have.
    pub fn depth(&self) -> u32
        ensures { result ≡ depth_of (T.Tier.meaning self.now.tier) }
    {
        self.tier.depth()
    }

    /// How many accesses a level served; of none, how many missed. Level 0 and levels beyond 4 serve no access.
    pub fn served(&self, level: Option<u32>) -> u64
        ensures { result ≡ count_of self.now.counts level }
    {
        place(level).map_or(0, |place| self.counts[place])
    }
}
