//! What is written as a scenario is read as what was written, and nothing else is read; and the first faulty line decides.
#![tactic(auto)]

ghost use Rattle.std.specs.Prelude.{◌≡◌, ℕ, List};
ghost use Rattle.round_trip.specs.Exactly.{ReadExactly, PairReadExactly};
ghost use Rattle.round_trip.specs.FirstFault.{FirstFaultDecides, PairFirstFaultDecides};

// A theorem has to be named by some function's contract, or the check would not ask for its proof.
/// A scenario, and a placement with a schedule, are read without a fault exactly if they are written as the format says, and as
/// what was written. The fault of a scenario, or of a placement or its schedule, is that of the first faulty line, and what
/// follows that line makes no difference; only the table (14) and the length of the text (15) are asked before. The answer is
/// how many theorems that is.
pub fn scenarios_read_back() -> u8
    ensures count { result ≡ 4 }
    ensures whole { (table text : List ℕ) → ReadExactly table text }
    ensures parted { (placement schedule : List ℕ) → PairReadExactly placement schedule }
    ensures first_fault { (table text : List ℕ) → FirstFaultDecides table text }
    ensures first_fault_in_pair { (placement schedule : List ℕ) → PairFirstFaultDecides placement schedule }
{
    4
}
