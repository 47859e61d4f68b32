//! Where a block belongs among a few places: lines, or sets.
ghost use Rattle.std.specs.Prelude.{◌≡◌, ◌%◌};

/// The place of a block among so many: its number mod `count`, or the number itself where there is none.
// The counts of hardware are powers of two, where the low bits are the remainder: much sooner told than by a division.
#[tactic(auto, using(crate::proofs::Powers::low_bits))]
pub fn place_of(block: u16, count: usize) -> usize
    ensures { result ≡ block % count }
{
    let block = usize::from(block);
    let low = count.wrapping_sub(1);
    if count & low == 0 {
        block & low
    } else {
        block % count
    }
}
