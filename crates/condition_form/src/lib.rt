#![tactic(auto)]
// A condition's parts at their places in its line (document 02, W-208).
pub mod condition;
