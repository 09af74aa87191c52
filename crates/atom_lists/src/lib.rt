#![tactic(auto)]
// Atoms by their class words, and lists of atoms as the steps write them.
pub mod classes;
pub mod split;
pub mod words;
