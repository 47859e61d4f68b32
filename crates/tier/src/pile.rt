//! A tier on a tier.
ghost use Rattle.std.specs.Prelude.{◌≡◌, Some};
ghost use Rattle.device.specs.Device.{after};
ghost use Rattle.tier.specs.Meaning.{clear};
ghost use Rattle.tier.specs.Pile.{pile, deeper, freed, sink, sunk};
ghost use Rattle.tier.specs.Stacked.{StaysStacked};
ghost use Rattle.tier.specs.PileLaws.{pile-lawful};

use crate::Tier;
use parts::line::Line;
use parts::refusal::Refusal;

/// Two tiers as one: a block that leaves the upper sinks into the lower.
#[derive(Drop)]
pub struct Pile<U, L> {
    upper: U,
    lower: L,
}

impl<U: Tier, L: Tier> Pile<U, L> {
    ghost use Rattle.tier.specs.Piled.{pile_of};

    /// The two tiers, cleared, one on the other. From then on the pile holds what the upper holds and, of the rest, what the
    /// lower holds.
    pub fn new(upper: U, lower: L) -> Pile<U, L>
        ensures cleared { pile_of U.Tier.meaning L.Tier.meaning result ≡ pile (after (U.Tier.meaning upper) clear) (after (L.Tier.meaning lower) clear) }
        ensures stacked { StaysStacked (pile_of U.Tier.meaning L.Tier.meaning result) (after (U.Tier.meaning upper) clear) (after (L.Tier.meaning lower) clear) }
    {
        Pile::stack(upper, lower)
    }

    // The code apart from the law of whole runs, so that an edit of it is refused for its own sake.
    fn stack(mut upper: U, mut lower: L) -> Pile<U, L>
        ensures { pile_of U.Tier.meaning L.Tier.meaning result ≡ pile (after (U.Tier.meaning upper) clear) (after (L.Tier.meaning lower) clear) }
    {
        upper.clear();
        lower.clear();
        Pile { upper, lower }
    }
}

// What the lower tier shows of a block, seen from above so many levels.
fn deepened(depth: u32, shown: (u32, u32, u32)) -> (u32, u32, u32)
    ensures { result ≡ deeper depth shown }
{
    let (mark, stamp, level) = shown;
    (mark, stamp, depth.saturating_add(level).min(4))
}

// Takes the block out of the tier, if it is there.
fn free<L: Tier>(lower: &mut L, block: u16)
    ensures { L.Tier.meaning lower.new ≡ freed (L.Tier.meaning lower.old) block }
{
    if lower.look(block).is_some() {
        let _ = lower.take(block);
    }
}

// Takes the block out of the tier, if it is there too, and puts the line into it. The tier is asked first, since a take in vain
// could alter what it gives out later, and so could a put that it refused.
fn sink_into<L: Tier>(lower: &mut L, line: Line) -> Option<Line>
    ensures answer { result ≡ sunk (L.Tier.meaning lower.old) (Some line) }
    ensures next { L.Tier.meaning lower.new ≡ sink (L.Tier.meaning lower.old) (Some line) }
{
    free(lower, line.block);
    lower.put(line).unwrap_or(None)
}

impl<U: Tier, L: Tier> Tier for Pile<U, L> {
    ghost use Rattle.tier.specs.Piled.{pile_of};

    ghost meaning = { pile_of U.Tier.meaning L.Tier.meaning };

    ghost lawful = { λ t. pile-lawful _ _ (U.Tier.lawful t.upper) (L.Tier.lawful t.lower) };

    fn depth(&self) -> u32 {
        (self.upper.depth() + self.lower.depth()).min(4)
    }

    fn look(&self, block: u16) -> Option<(u32, u32, u32)> {
        if let Some(shown) = self.upper.look(block) {
            return Some(shown);
        }
        let shown = self.lower.look(block)?;
        Some(deepened(self.upper.depth(), shown))
    }

    // Both parts are asked first: a put that one of them refused could alter what it gives out later.
    fn put(&mut self, line: Line) -> Result<Option<Line>, Refusal> {
        if self.upper.look(line.block).is_some() || self.lower.look(line.block).is_some() {
            return Err(Refusal::AlreadyHeld);
        }
        let Some(fallen) = self.upper.put(line)? else {
            return Ok(None);
        };
        let out = sink_into(&mut self.lower, fallen);
        Ok(out.filter(|out| self.upper.look(out.block).is_none()))
    }

    fn take(&mut self, block: u16) -> Option<(u32, u32, u32)> {
        let depth = self.upper.depth();
        let above = self.upper.take(block);
        let below = self.lower.take(block);
        if above.is_some() {
            return above;
        }
        Some(deepened(depth, below?))
    }

    fn change(&mut self, line: Line) -> Result<(), Refusal> {
        if self.upper.look(line.block).is_some() {
            self.upper.change(line)
        } else {
            self.lower.change(line)
        }
    }

    fn touch(&mut self, block: u16) -> Result<(), Refusal> {
        if self.upper.look(block).is_some() {
            self.upper.touch(block)
        } else {
            self.lower.touch(block)
        }
    }

    fn clear(&mut self) {
        self.upper.clear();
        self.lower.clear();
    }
}
