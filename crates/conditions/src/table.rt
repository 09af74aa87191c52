// A row of the table of a condition's connectives.
#[derive(Clone, Copy)]
pub enum Connective {
    Not,
    And,
    Or,
}

// A connective and the atoms of its parts; for `not` the second is not looked at.
#[derive(Clone, Copy)]
pub struct TableRow {
    pub kind: Connective,
    pub left: u16,
    pub right: u16,
}
