#![tactic(auto)]
// What a line that declares atoms adds, or its lowest fault (document 01, "Who can be turned back").
pub mod declared_line;
