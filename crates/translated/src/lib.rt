#![tactic(auto)]
// The rule store and the name store of a translation.
pub mod translated_names;
pub mod translated_rules;
