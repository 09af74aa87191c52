#![tactic(auto)]
// The masks of the rules in groups by their last atom (document 02, W-207).
pub mod grouping;
pub mod plan;
