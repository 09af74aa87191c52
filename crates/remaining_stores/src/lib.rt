#![tactic(auto)]
// What is left of a preference program, without the atoms that stand in no rule, into the two lent outputs (document 02, W-203).
pub mod left;
pub mod remaining;
