#![tactic(auto)]
// The atoms that conditions made, put in their place once the last line is read (document 02, W-208).
pub mod made;
pub mod numbers;
pub mod parts;
