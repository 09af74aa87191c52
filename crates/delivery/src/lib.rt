#![tactic(auto)]
// The scratch stores into the two lent outputs.
pub mod delivery;
