#![tactic(auto)]
// The lines of a program written from its stores (document 01, "The two kinds of file").
pub mod atoms;
pub mod classes;
pub mod placed;
pub mod rule_lines;
pub mod text;
