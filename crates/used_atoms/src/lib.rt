#![tactic(auto)]
// The atoms that stand in some rule, marked and numbered (document 02, W-203).
pub mod marks;
