//! The warrant, as a theorem.
ghost use Rattle.std.specs.Prelude.{◌≡◌};
ghost use Rattle.study.specs.Warrant.{Warrant};

// A function for each theorem that a contract names: a theorem is no parameter.
/// Of any lawful tiers and memory and every list of calls: piles are tiers; every core begins ready, its tier cleared and holding
/// nothing, and every block valid with stamp 0; cores and blocks stay as many, and the weights as they are; each answer tells what
/// is so, and leaves no choice; each tier, and the memory, is what calls of its own have made of it; cores and memory are coherent;
/// no message meets a modified copy; every read delivered is honest; and the counts are those of the answers. The answer is how many
/// parts that has, which are the fields of `Warranted`.
pub fn warrant_stands() -> u8
    ensures parts { result ≡ 13 }
    ensures stands { Warrant }
{
    13
}
