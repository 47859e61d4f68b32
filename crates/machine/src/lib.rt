//! The machine that the programs simulate.
#![tactic(auto)]

ghost use Rattle.std.specs.Prelude.{◌≡◌, IfOk};
ghost use Rattle.direct.specs.Direct.{direct_of};
ghost use Rattle.direct.specs.Lines.{direct, empty};
ghost use Rattle.assoc.specs.SetAssociative.{meaning_of};
ghost use Rattle.assoc.specs.Sets.{set_associative, empty as empty-sets};
ghost use Rattle.machine.specs.Machine.{two_levels, two_cores, caches_of, cores_of};

use assoc::set_associative::SetAssociative;
use direct::direct::Direct;
use pair::Pair;
use parts::refusal::BuildError;
use row::one_core::Core;
use std::alloc::{AllocError, Global};
use tier::pile::Pile;

/// How many blocks main memory has.
pub const BLOCKS: usize = 16;

/// The machine in words, broken as the help texts of the programs have it.
pub const IN_WORDS: &str = "two cores, each with a
direct tier of 2 lines on a set-associative tier of 2 sets of 2 ways, over a memory of 16 blocks";

/// Caches of two levels, a direct tier on a set-associative one.
pub type Caches = Pile<Direct, SetAssociative>;

/// Two cores with such caches.
pub type TwoCores = Pair<Core<Caches>, Core<Caches>>;

// Two empty tiers, one on the other: a pile clears both, and leaves them as they are.
fn stack(upper: Direct, lower: SetAssociative) -> Caches
    requires upper_empty { direct_of upper ≡ direct (empty 2) }
    requires lower_empty { meaning_of lower ≡ set_associative (empty-sets 2 2) }
    ensures { caches_of result ≡ two_levels }
{
    Pile::new(upper, lower)
}

/// Empty caches: 2 lines on 2 sets of 2 ways.
pub fn two_levels(heap: Global) -> Result<Caches, AllocError>
    ensures { IfOk result (λ c. caches_of c ≡ two_levels) }
{
    let upper = Direct::new(heap, 2).or_else(BuildError::into_tier)?;
    let lower = SetAssociative::new(heap, 2, 2).or_else(BuildError::into_tier)?;
    Ok(stack(upper, lower))
}

/// Two ready cores with such caches, all empty.
pub fn two_cores(heap: Global) -> Result<TwoCores, AllocError>
    ensures { IfOk result (λ p. cores_of p ≡ two_cores) }
{
    let first = Core::new(two_levels(heap)?);
    let second = Core::new(two_levels(heap)?);
    Ok(Pair::new(first, second))
}
