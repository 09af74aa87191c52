#![tactic(auto)]
// Steps 2 and 3 of the translation, which go over the rules (document 01, "The translation").
pub mod rule_steps;
