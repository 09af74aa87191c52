#![tactic(auto)]
// The name store of a program: its index by hash (document 01, "The two kinds of file").
pub mod index;
pub mod indexed;
