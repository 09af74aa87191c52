#![tactic(auto)]
// A condition's parts, read by the words that bind them (document 02, W-208).
pub mod parts;
pub mod places;
pub mod rows;
