#![tactic(auto)]
// Clause files (document 02, W-202): definitions and theory alone.
