#![tactic(auto)]
// The items of a clause file's line at their places: numbers, literals, the header (document 02, W-202).
pub mod header;
pub mod items;
pub mod numbers;
