// All that a search goes by, in one array: one reference is handed down, and every word lies at a fixed distance from it.
use crate::grouping::Group;
use kinds::limits::Preference;

#[derive(Clone, Copy)]
pub struct Plan;

impl Plan {
    // The better set that a search has found.
    pub const FOUND: usize = 0;

    // What one search is asked: the atoms that may be out, those that may be in, the set to be bettered, the budget.
    pub const OUTS: usize = 1;

    pub const INS: usize = 2;

    pub const OF: usize = 3;

    pub const BUDGET: usize = 4;

    // A 1. The compiler keeps a bit made of a constant in a saved register; one made of this it makes anew after a call, which costs less.
    pub const ONE: usize = 5;

    // What the program gives: where each group of its rules begins, the masks of its classes, and the rules' masks.
    pub const STARTS: usize = 6;

    pub const CLASSES: usize = Plan::STARTS + Group::STARTS;

    // The atoms of all classes.
    pub const MINIMISED: usize = Plan::CLASSES + Preference::CLASSES;

    pub const CARE: usize = Plan::MINIMISED + 1;

    pub const WANT: usize = Plan::CARE + Group::PLACES;

    pub const WORDS: usize = Plan::WANT + Group::PLACES;
}
