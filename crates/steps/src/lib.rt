#![tactic(auto)]
// The steps of the translation over atoms and classes, each as the words that it writes (document 01, "The translation").
pub mod class_steps;
pub mod offsets;
pub mod steps;
