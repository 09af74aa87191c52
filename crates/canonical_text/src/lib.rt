#![tactic(auto)]
// Canonical texts: when two are equal, what they are read as, which states they have (document 02, W-205). No code.
