#![tactic(auto)]
// Whether tokens are a condition, and what its faults are told by (document 02, W-208).
pub mod scan;
pub mod sorts;
