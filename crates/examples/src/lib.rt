//! Worked examples: proved of the definitions, and run as tests of the code.
#![tactic(auto)]

ghost use Rattle.std.specs.Prelude.{◌≡◌};
ghost use Rattle.examples.specs.Examples.{Examples};
ghost use Rattle.examples.specs.FreeRuns.{FreeRuns};
ghost use Rattle.examples.specs.Premises.{Premises};

pub mod free_running;

// A theorem has to be named by some function's contract, or the check would not ask for its proof.
/// The examples hold of the definitions; the answer is how many there are.
pub fn examples_hold() -> u8
    ensures count { result ≡ 23 }
    ensures hold { Examples }
{
    23
}

// As above.
/// What is shipped meets the premises of what is proved of every study; the answer is how many there are. And so does a kind of
/// tier whose choice of what leaves moves on with every call.
pub fn premises_met() -> u8
    ensures count { result ≡ 12 }
    ensures met { Premises }
    ensures any_kind { FreeRuns }
{
    12
}

#[cfg(test)]
mod memory_tests;
#[cfg(test)]
mod scenario_tests;
#[cfg(test)]
mod study_tests;
#[cfg(test)]
mod tier_tests;
