#![tactic(auto)]
// Conditions in a preference file (document 02, W-208): what they mean, the rules written for them, their theorems; and a row of the table of their connectives.
pub mod table;
