#![tactic(auto)]
// Which bytes are names (document 01, "The two kinds of file").
pub mod forms;
