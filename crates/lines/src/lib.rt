#![tactic(auto)]
// The lines of a text and their forms (document 01, "The two kinds of file").
pub mod forms;
pub mod scan;
pub mod stage;
