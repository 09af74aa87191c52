#![tactic(auto)]
// Names entered into the index, and found in it by number.
pub mod entries;
pub mod hashed_items;
pub mod numbers;
