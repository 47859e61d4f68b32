//! What a run counts.
ghost use Rattle.std.specs.Prelude.{◌≡◌, ◌<◌, ◌≤◌};
ghost use Rattle.study.specs.Run.{tally, tallied, most_steps, most_charge};
ghost use Rattle.study.specs.Settling.{quote_of};

use crate::effect::Performed;
use crate::quote::Quote;
use std::marker::Model;

/// The most steps that a run accepts.
pub const MOST_STEPS: u32 = 1_000_000;

/// Accepted steps, writes performed, accesses performed, and the total of all charges.
#[derive(Drop)]
pub struct Counts {
    steps: u32,
    writes: u32,
    accesses: u32,
    total: u64,
}

/// Counts are seen as a tally, and never overflow.
impl Model for Counts {
    ghost use Rattle.study.specs.Run.{Tally, tally, Bounded};

    ghost Value = { Tally };

    ghost view = { λ k. tally k.steps k.writes k.accesses k.total };

    ghost invariant = { λ k. Bounded (tally k.steps k.writes k.accesses k.total) };
}

impl Counts {
    pub(crate) fn zero() -> Counts
        ensures { result ≡ tally 0 0 0 0 }
    {
        Counts {
            steps: 0,
            writes: 0,
            accesses: 0,
            total: 0,
        }
    }

    #[inline(always)]
    pub(crate) fn steps(&self) -> u32
        ensures { result ≡ self.now.steps }
    {
        self.steps
    }

    #[inline(always)]
    pub(crate) fn writes(&self) -> u32
        ensures writes { result ≡ self.now.writes }
        ensures bound { result ≤ most_steps }
    {
        self.writes
    }

    pub(crate) fn total(&self) -> u64
        ensures { result ≡ self.now.total }
    {
        self.total
    }

    pub(crate) fn quote(&self) -> Quote
        ensures { result ≡ quote_of self.now }
    {
        let figure = if self.accesses == 0 {
            None
        } else {
            Some(100 * self.total / u64::from(self.accesses))
        };
        Quote {
            accesses: self.accesses,
            total: self.total,
            figure,
        }
    }

    /// One more accepted step, with what it performed and what it is charged.
    #[inline(always)]
    pub(crate) fn accept(&mut self, performed: Performed, charge: u32)
        requires { (self.old.steps < most_steps) × (charge ≤ most_charge) }
        ensures { self.new ≡ tallied self.old performed charge }
    {
        let (writes, accesses) = match performed {
            Performed::Nothing => (0, 0),
            Performed::Read => (0, 1),
            Performed::Write => (1, 1),
        };
        self.steps += 1;
        self.writes += writes;
        self.accesses += accesses;
        self.total += u64::from(charge);
    }
}
