#![tactic(auto)]
// Definitions and laws of partial choices; no code.
