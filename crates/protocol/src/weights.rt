//! What the movements of blocks cost.
ghost use Rattle.std.specs.Prelude.{◌≡◌, ◌≤◌};
ghost use Rattle.protocol.specs.Prices.{price, weighing, none, most_weight, Affordable};

use crate::refusal::Refusal;

/// The largest weight.
pub const MOST_WEIGHT: u16 = 1000;

/// The weights of levels 1 to 4 and of main memory, as they are given.
#[derive(Clone, Copy, Default, PartialEq, Eq, Debug)]
pub struct Prices {
    pub w1: u16,
    pub w2: u16,
    pub w3: u16,
    pub w4: u16,
    pub wm: u16,
}

/// What it costs to bring a block up from each level, and to move one to or from main memory: none above 1,000.
#[derive(Clone, Copy, PartialEq, Eq, Debug)]
pub struct Weights {
    prices: Prices,
    ghost affordable: { Affordable prices },
}

/// How a step moved a block.
#[derive(Clone, Copy, PartialEq, Eq, Debug)]
pub enum Movement {
    /// Not at all.
    Still,
    /// Brought up from a level of the core's own caches.
    FromLevel(u32),
    /// To or from main memory.
    Memory,
}

/// The weights, if none is above 1,000.
impl TryFrom<Prices> for Weights {
    ghost use Rattle.protocol.specs.Weighing.{weighed};

    type Error = Refusal;

    ghost try_from_gives = { λ p r. weighed r ≡ weighing p };

    #[tactic(auto, unfolding(crate::specs::Prices::is_dear))]
    fn try_from(prices: Prices) -> Result<Weights, Refusal> {
        if prices.w1 > MOST_WEIGHT
            || prices.w2 > MOST_WEIGHT
            || prices.w3 > MOST_WEIGHT
            || prices.w4 > MOST_WEIGHT
            || prices.wm > MOST_WEIGHT
        {
            return Err(Refusal::WeightTooHigh);
        }
        Ok(Weights { prices })
    }
}

impl Weights {
    ghost use Rattle.protocol.specs.Weighing.{prices_of};

    /// Weights that are all 0.
    #[tactic(auto, unfolding(crate::specs::Prices::is_dear))]
    pub fn zero() -> Weights
        ensures { prices_of result ≡ none }
    {
        Weights {
            prices: Prices::default(),
        }
    }

    /// What a movement costs.
    #[tactic(auto, unfolding(crate::specs::Prices::is_dear))]
    pub fn price(self, movement: Movement) -> u16
        ensures price { result ≡ price (prices_of self) movement }
        ensures bound { result ≤ most_weight }
    {
        match movement {
            Movement::Still => 0,
            Movement::FromLevel(1) => self.prices.w1,
            Movement::FromLevel(2) => self.prices.w2,
            Movement::FromLevel(3) => self.prices.w3,
            Movement::FromLevel(_) => self.prices.w4,
            Movement::Memory => self.prices.wm,
        }
    }
}
