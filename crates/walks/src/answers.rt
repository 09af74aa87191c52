// What a verdict and the next state answer.
use kinds::refusals::Refusal;

#[derive(Clone, Copy)]
pub enum Verdict {
    Yes { units: u64 },
    // The number, from 0, of the first rule that does not hold.
    Broken { rule: u64 },
    // The first better set.
    Beaten { set: u64, units: u64 },
    // The units are the budget.
    Spent { units: u64 },
    Refused { refusal: Refusal },
}

#[derive(Clone, Copy)]
pub enum NextState {
    State { set: u64, units: u64 },
    Nothing { units: u64 },
    Spent { units: u64 },
    Refused { refusal: Refusal },
}

// Where a set stands in the order of the walks, or the refusal.
pub type Place = Result<u64, Refusal>;
