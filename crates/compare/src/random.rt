//! Pseudo-random numbers, the same in every run.

/// A generator, by its state.
#[derive(Drop)]
pub(crate) struct Random(u64);

impl Random {
    pub(crate) fn new(seed: u64) -> Random {
        let mut random = Random(seed.wrapping_mul(0x9e37_79b9_7f4a_7c15).wrapping_add(1));
        random.advance();
        random
    }

    fn advance(&mut self) -> u64 {
        self.0 = self
            .0
            .wrapping_mul(6_364_136_223_846_793_005)
            .wrapping_add(1_442_695_040_888_963_407);
        self.0 >> 33
    }

    /// A number below the limit; 0 where the limit is 0.
    pub(crate) fn below(&mut self, limit: usize) -> usize {
        (self.advance() as usize).checked_rem(limit).unwrap_or(0)
    }

    /// A number of a range, both ends included.
    pub(crate) fn among(&mut self, least: usize, most: usize) -> usize {
        let width = most.saturating_sub(least).saturating_add(1);
        self.below(width).saturating_add(least)
    }

    /// The same, in 32 bits.
    pub(crate) fn word(&mut self, least: usize, most: usize) -> u32 {
        (self.among(least, most) & 0xffff_ffff) as u32
    }

    /// Whether a chance of one in so many came.
    pub(crate) fn once_in(&mut self, count: usize) -> bool {
        self.below(count) == 0
    }

    /// A number below the limit, small ones oftener.
    pub(crate) fn low(&mut self, limit: usize) -> usize {
        let cap = self.below(limit).saturating_add(1);
        self.below(cap)
    }
}
