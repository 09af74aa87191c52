#![tactic(auto)]
// What the lines so far have given, and what a rule's line adds (document 01, "Who can be turned back").
pub mod gathered;
pub mod rule_line;
