#![tactic(auto)]
// Clauses gathered as rules in the scratch words, and the names of their atoms (document 02, W-202).
pub mod atom_names;
pub mod clause;
