// What the check of a rule store keeps and gives.

// Behind a rule of the form: the place of the next one, and the occurrences so far.
#[derive(Clone, Copy)]
pub struct RuleEnd {
    pub at: usize,
    pub used: usize,
}

// Of a checked store: how many atoms and rules it has, and where its rules start.
#[derive(Clone, Copy)]
pub struct Header {
    pub atoms: usize,
    pub rules: usize,
    pub start: usize,
}
