#![tactic(auto)]
// Each list of a store's rules sorted where it stands (document 02, W-205).
pub mod atom_list;
pub mod rule_lists;
