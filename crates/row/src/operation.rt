//! What a step does with a block in the caches of one core.
use parts::line::Line;

// An enum: a pair of rows passes one call on. No closure takes a tier of any type, no `&mut dyn` made of a type parameter is
// proved, and a trait with three implementations would say no more.
#[derive(Clone, Copy, PartialEq, Eq, Debug)]
pub enum Operation {
    /// Brings up a block that is held with this mark, stamp and level.
    BringUp(u16, (u32, u32, u32)),
    /// Puts a line.
    Put(Line),
    /// Gives a held block the line's mark and stamp.
    Change(Line),
}
