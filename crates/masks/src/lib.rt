#![tactic(auto)]
// Rules and classes as masks of 64 atoms, the checks of a call (document 01, "Caller"), and answers over places.
pub mod answers_at;
pub mod guard;
pub mod masks;
