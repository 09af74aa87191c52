#![tactic(auto)]
// The rule store of a program: u16 words (document 01, "The two kinds of file").
pub mod roles;
pub mod rule_store;
pub mod rule_words;
