#![tactic(auto)]
// Elements into a lent output that may be too short for them: what has no room is counted and not written.
pub mod bytes;
pub mod elements;
pub mod words;
