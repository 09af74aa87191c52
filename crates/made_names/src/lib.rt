#![tactic(auto)]
// The names of the atoms that conditions make, `T.1`, `T.2`, and so on (document 02, W-208).
pub mod declared;
pub mod writing;
