//! Eight cores with caches of four levels.
ghost use Rattle.std.specs.Prelude.{◌≡◌, [], ◌∷◌, IfOk, replicate};
ghost use Rattle.protocol.specs.declared.access.CoreState.TheVariants.{Ready};
ghost use Rattle.row.specs.Cores.{core};
ghost use Rattle.direct.specs.Direct.{direct_of};
ghost use Rattle.direct.specs.Lines.{direct, empty};
ghost use Rattle.assoc.specs.SetAssociative.{meaning_of};
ghost use Rattle.assoc.specs.Sets.{set_associative, empty as empty-sets};
ghost use Rattle.speed.specs.Eight.{four_levels, eight_cores};
ghost use Rattle.speed.specs.Private.{caches_of, cores_of, both, Beside};

use assoc::set_associative::SetAssociative;
use direct::direct::Direct;
use pair::Pair;
use parts::refusal::BuildError;
use row::Row;
use row::one_core::Core;
use std::alloc::{AllocError, Global};
use tier::pile::Pile;

/// Caches of four levels.
pub type Caches = Pile<Direct, Pile<SetAssociative, Pile<SetAssociative, SetAssociative>>>;

type DeepPair = Pair<Core<Caches>, Core<Caches>>;

type FourCores = Pair<DeepPair, DeepPair>;

/// Eight cores with such caches.
pub type EightCores = Pair<FourCores, FourCores>;

// Four empty tiers, one on the other: a pile clears its parts, and leaves these as they are.
fn stack(
    first: Direct,
    second: SetAssociative,
    third: SetAssociative,
    fourth: SetAssociative,
) -> Caches
    requires first { direct_of first ≡ direct (empty 2) }
    requires second { meaning_of second ≡ set_associative (empty-sets 2 2) }
    requires third { meaning_of third ≡ set_associative (empty-sets 4 4) }
    requires fourth { meaning_of fourth ≡ set_associative (empty-sets 8 4) }
    ensures { caches_of result ≡ four_levels }
{
    Pile::new(first, Pile::new(second, Pile::new(third, fourth)))
}

// Empty caches: 2 lines on 2 sets of 2 ways, on 4 sets of 4 ways, on 8 sets of 4 ways.
fn four_levels(heap: Global) -> Result<Caches, AllocError>
    ensures { IfOk result (λ c. caches_of c ≡ four_levels) }
{
    let first = Direct::new(heap, 2).or_else(BuildError::into_tier)?;
    let second = SetAssociative::new(heap, 2, 2).or_else(BuildError::into_tier)?;
    let third = SetAssociative::new(heap, 4, 4).or_else(BuildError::into_tier)?;
    let fourth = SetAssociative::new(heap, 8, 4).or_else(BuildError::into_tier)?;
    Ok(stack(first, second, third, fourth))
}

// A ready core with such caches.
fn deep_core(heap: Global) -> Result<Core<Caches>, AllocError>
    ensures { IfOk result (λ c. cores_of c ≡ core four_levels Ready ∷ []) }
{
    Ok(Core::new(four_levels(heap)?))
}

// Two rows that were made, side by side. Of any row: a function that names eight cores of four levels is dear to check.
fn beside<R: Row + Drop>(
    first: Result<R, AllocError>,
    second: Result<R, AllocError>,
) -> Result<Pair<R, R>, AllocError>
    ensures { Beside R.Row.cores first second result }
{
    let first = first?;
    Ok(Pair::new(first, second?))
}

fn deep_pair(heap: Global) -> Result<DeepPair, AllocError>
    ensures { IfOk result (λ p. both cores_of p ≡ replicate 2 (core four_levels Ready)) }
{
    beside(deep_core(heap), deep_core(heap))
}

fn four_cores(heap: Global) -> Result<FourCores, AllocError>
    ensures { IfOk result (λ p. both (both cores_of) p ≡ replicate 4 (core four_levels Ready)) }
{
    beside(deep_pair(heap), deep_pair(heap))
}

/// Eight ready cores, with empty caches.
pub(crate) fn eight_cores(heap: Global) -> Result<EightCores, AllocError>
    ensures { IfOk result (λ p. both (both (both cores_of)) p ≡ eight_cores) }
{
    beside(four_cores(heap), four_cores(heap))
}
