//! Lines ranked by age: definitions for contracts, in specs/, what follows of them, in proofs/, and no code.
#![tactic(auto)]
