#![tactic(auto)]
// The preferred verdict over a rule store (document 01, "Verdicts").
pub mod preferred;
