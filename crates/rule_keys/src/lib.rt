#![tactic(auto)]
// A key for each rule: the first atoms of its lists as the digits of a number (document 02, W-205).
pub mod entries;
pub mod keys;
