#![tactic(auto)]
// Theorems only: what a text with conditions states, read from its bytes (document 02, W-208).
