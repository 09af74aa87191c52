#![tactic(auto)]
// The order of the sets of a program's atoms (document 02, W-206).
pub mod turning;
