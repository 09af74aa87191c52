#![tactic(auto)]
// What the entry points over texts answer.
use kinds::refusals::Refusal;

// The words and bytes that the reader has written.
#[derive(Clone, Copy)]
pub struct ReadSizes {
    pub words: usize,
    pub bytes: usize,
}

// A refusal with its line (0 where there is none).
#[derive(Clone, Copy)]
pub struct ReadRefusal {
    pub refusal: Refusal,
    pub line: usize,
}

// The reader: what it has written, or why it has not.
pub type Read = Result<ReadSizes, ReadRefusal>;

// The writer and the translator: the bytes written, or the refusal.
pub type Written = Result<usize, Refusal>;
