#![tactic(auto)]
// The next state (document 01, "Verdicts"; document 02, W-207), and the place from which to go on (document 02, W-206).
pub mod candidates;
pub mod next;
pub mod place;
