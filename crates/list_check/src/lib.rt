#![tactic(auto)]
// The check of the lists of a rule store (refusal 10).
pub mod list_forms;
