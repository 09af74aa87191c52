#![tactic(auto)]
// Entries sorted by their keys, digit by digit (document 02, W-205).
pub mod sorting;
pub mod spreading;
