#![tactic(auto)]
// What a condition's line adds, or its first fault (document 02, W-208).
pub mod condition_line;
