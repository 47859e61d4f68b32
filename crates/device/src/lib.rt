//! What a simulated device is: definitions for contracts, in specs/, and no code.
#![tactic(auto)]
