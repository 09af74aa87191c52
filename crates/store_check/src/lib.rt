#![tactic(auto)]
// The check of a whole rule store (refusal 10).
pub mod header;
pub mod store_forms;
