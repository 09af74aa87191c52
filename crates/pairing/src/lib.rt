#![tactic(auto)]
// The translation of a preference program and its theorems: definitions in specs/, their laws in proofs/. No code.
