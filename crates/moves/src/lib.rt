//! How a step moves a block in the caches of one core, whatever its tier.
#![tactic(auto)]

ghost use Rattle.std.specs.Prelude.{◌≡◌, Some};
ghost use Rattle.device.specs.Device.{after};
ghost use Rattle.parts.specs.Marks.{mark_of};
ghost use Rattle.tier.specs.Meaning.{put, take, look_of, put_answer};
ghost use Rattle.moves.specs.Moves.{given, raised, raised_out, put_back, put_back_out, modified_stamp};

use parts::line::Line;
use parts::mark::Mark;
use tier::Tier;

/// Puts a block, and gives out the one that leaves for it. A block that is held stays as it is.
#[inline(always)]
pub fn put_block<T: Tier>(tier: &mut T, line: Line) -> Option<Line>
    ensures answer { result ≡ given (put_answer (T.Tier.meaning tier.old) line.block line.mark line.stamp) }
    ensures next { T.Tier.meaning tier.new ≡ after (T.Tier.meaning tier.old) (put line.block line.mark line.stamp) }
{
    tier.put(line).unwrap_or(None)
}

// Takes a block that is held below level 1, and puts it again with its mark and stamp.
#[inline(always)]
fn put_back<T: Tier>(tier: &mut T, block: u16, mark: u32, stamp: u32) -> Option<Line>
    ensures answer { result ≡ put_back_out (T.Tier.meaning tier.old) block (mark_of mark) stamp }
    ensures next { T.Tier.meaning tier.new ≡ put_back (T.Tier.meaning tier.old) block (mark_of mark) stamp }
{
    let _ = tier.take(block);
    let mark = Mark::try_from(mark).ok()?;
    put_block(tier, Line { block, mark, stamp })
}

// Touches a block that is held at level 1, and puts one that is held below it again.
#[inline(always)]
fn raise<T: Tier>(tier: &mut T, block: u16, held: (u32, u32, u32)) -> Option<Line>
    ensures answer { result ≡ raised_out (T.Tier.meaning tier.old) block held }
    ensures next { T.Tier.meaning tier.new ≡ raised (T.Tier.meaning tier.old) block held }
{
    let (mark, stamp, level) = held;
    if level == 1 {
        let _ = tier.touch(block);
        return None;
    }
    put_back(tier, block, mark, stamp)
}

/// Brings a block that is held so up to level 1, where it keeps its mark and stamp, and gives out the one that leaves for it.
#[inline(always)]
pub fn bring_up<T: Tier>(tier: &mut T, block: u16, held: (u32, u32, u32)) -> Option<Line>
    ensures answer { result ≡ raised_out (T.Tier.meaning tier.old) block held }
    ensures next { T.Tier.meaning tier.new ≡ raised (T.Tier.meaning tier.old) block held }
    ensures law { look_of (T.Tier.meaning tier.old) block ≡ Some held → look_of (T.Tier.meaning tier.new) block ≡ Some (held.0, held.1, 1) }
{
    raise(tier, block, held)
}

/// The stamp of a copy that is modified.
#[inline(always)]
pub fn modified_stamp(held: Option<(u32, u32, u32)>) -> Option<u32>
    ensures { result ≡ modified_stamp held }
{
    let (mark, stamp, _) = held?;
    (mark == u32::from(Mark::Modified)).then_some(stamp)
}

/// Drops a block, and tells its stamp if the copy was modified.
#[inline(always)]
pub fn drop_block<T: Tier>(tier: &mut T, block: u16) -> Option<u32>
    ensures answer { result ≡ modified_stamp (look_of (T.Tier.meaning tier.old) block) }
    ensures next { T.Tier.meaning tier.new ≡ after (T.Tier.meaning tier.old) (take block) }
{
    modified_stamp(tier.take(block))
}
