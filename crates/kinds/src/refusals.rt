// The refusals and their numbers (document 01, "Who can be turned back"; from 15 on document 02).
ghost use Rattle.std.specs.Prelude.{◌≡◌};
ghost use Rattle.kinds.specs.Refusals.{refusal_number};

#[derive(Clone, Copy)]
pub enum Refusal {
    TextTooLong = 1,
    BrokenForm = 2,
    Name = 3,
    DeclaredTwice = 4,
    Undeclared = 5,
    TwiceInList = 6,
    Limit = 7,
    FilledNot = 8,
    Output = 9,
    RuleStore = 10,
    TooManyAtoms = 11,
    SetNumber = 12,
    Budget = 13,
    NameStore = 14,
    BrokenClauses = 15,
    LiteralBeyond = 16,
    BrokenCondition = 17,
    DeepBrackets = 18,
    RuleIndex = 19,
}

impl Refusal {
    pub fn number(self) -> u64
        ensures { result ≡ refusal_number self }
    {
        self as u64
    }
}
