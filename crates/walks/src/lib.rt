#![tactic(auto)]
// What a verdict and the next state answer (document 01, "Verdicts"): the definitions and their theory.
pub mod answers;
