//! The mark of a cached block.
ghost use Rattle.std.specs.Prelude.{◌≡◌};
ghost use Rattle.parts.specs.Marks.{mark_number, Reads};

/// Shared: main memory and other cores may have the same copy. Modified: this copy alone is current.
#[derive(Clone, Copy, PartialEq, Eq, Debug)]
pub enum Mark {
    Shared,
    Modified,
}

/// A number that stands for no mark.
#[derive(Clone, Copy, PartialEq, Eq, Debug)]
pub struct UnknownMark(pub u32);

/// The number that stands for the mark in what a tier shows.
impl From<Mark> for u32 {
    ghost from_gives = { λ mark number. number ≡ mark_number mark };

    fn from(mark: Mark) -> u32 {
        match mark {
            Mark::Shared => 0,
            Mark::Modified => 1,
        }
    }
}

/// The mark that a number stands for.
impl TryFrom<u32> for Mark {
    type Error = UnknownMark;

    ghost try_from_gives = { Reads };

    fn try_from(number: u32) -> Result<Mark, UnknownMark> {
        match number {
            0 => Ok(Mark::Shared),
            1 => Ok(Mark::Modified),
            _ => Err(UnknownMark(number)),
        }
    }
}
