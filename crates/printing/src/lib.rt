#![tactic(auto)]
// The lines that the two programs print (document 01, "Sheets of known states").
pub mod printing;
