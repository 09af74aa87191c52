#![tactic(auto)]
// The check of a rule store's rules (refusal 10).
pub mod rule_forms;
