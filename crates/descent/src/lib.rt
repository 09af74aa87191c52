#![tactic(auto)]
// The search over partial choices, by masks (document 02, W-207).
pub mod search;
pub mod verdicts;
