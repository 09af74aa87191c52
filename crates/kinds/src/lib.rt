#![tactic(auto)]
// The two kinds of file with their limits, and the refusals (document 01).
pub mod limits;
pub mod refusals;
