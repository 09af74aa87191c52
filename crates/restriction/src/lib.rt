#![tactic(auto)]
// Definitions and laws of programs over some of their atoms; no code.
