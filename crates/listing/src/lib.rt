#![tactic(auto)]
// The whole listing of a store's states (document 01, "Sheets of known states").
pub mod listing;
