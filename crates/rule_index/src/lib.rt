#![tactic(auto)]
// What the entry points over the index of a rule store answer (document 02, W-209).
use kinds::refusals::Refusal;

pub mod marks;

// The words written, or the refusal.
pub type Filled = Result<usize, Refusal>;

// The words of the store and of its index.
#[derive(Clone, Copy)]
pub struct GrownSizes {
    pub words: usize,
    pub index_words: usize,
}

// The sizes of both, or the refusal.
pub type Grown = Result<GrownSizes, Refusal>;
