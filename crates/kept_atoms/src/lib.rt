#![tactic(auto)]
// The atoms that a declaring line adds (document 01, "Who can be turned back").
pub mod kept_atoms;
