#![tactic(auto)]
// The stable verdict over a rule store (document 01, "Verdicts").
pub mod reduct;
pub mod stable;
