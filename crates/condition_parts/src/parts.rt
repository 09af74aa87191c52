// A condition's parts: `not` binds before `and`, `and` before `or`, equals group to the left.
// Each level leaves the next word to the level above it. Unread bytes, and between two words the level, fall at each call.
ghost use Rattle.std.specs.Prelude.{◌≡◌, false, List, ℕ, ◌≤◌, length, drop};
ghost use Rattle.kinds.specs.Words.{not_word};
ghost use Rattle.name_store.specs.IndexedNames.{names_of};
ghost use Rattle.conditions.specs.declared.table.TableRow.{TableRow};
ghost use Rattle.lines.specs.Tokens.{tokens};
ghost use Rattle.lines.specs.Conditions.{names_in};
ghost use Rattle.numbering.specs.Numbers.{undeclared};
ghost use Rattle.condition_parts.specs.Places.{is_opening, is_leading};
ghost use Rattle.condition_parts.specs.Parts.{disjunctions, conjunctions, single, Readable, PartIs, ParseIs};

use crate::places::{opening_at, word_at};
use crate::rows::put_row;
use conditions::table::{Connective, TableRow};
use lines::scan;
use lines::scan::Item;
use name_store::index::same_bytes;
use name_store::indexed::NameIndex;

// The place behind a part, its atom, and the row of the connective that comes next.
#[derive(Clone, Copy)]
pub struct Part {
    pub place: usize,
    pub atom: usize,
    pub next: usize,
}

// The atom of a whole condition, and how many connectives it has.
#[derive(Clone, Copy)]
pub struct Parse {
    pub atom: usize,
    pub connectives: usize,
}

// The name at `at`, whose number is found through the index.
fn name_at(s: &[u8], at: usize, next: usize, names: &NameIndex) -> Option<Part>
    requires at_in_bounds { (at ≤ length s.now) × (undeclared (names_of names.now) (names_in (tokens (drop at s.now))) ≡ false) }
    requires s_value { (is_opening (tokens (drop at s.now)) ≡ false) × (is_leading not_word (tokens (drop at s.now)) ≡ false) }
    ensures { (made : ℕ) (table : List TableRow) → PartIs single (names_of names.now) s.now at made next table table result }
{
    let Item { gap, size } = scan::item_at(s, at)?;
    let start = at + gap;
    let place = start + size;
    let name = &s[start..place];
    if same_bytes(name, b"and") || same_bytes(name, b"or") {
        return None;
    }
    let atom = names.find(name)?;
    Some(Part { place, atom, next })
}

// Parts joined by `or`.
#[cycle(and_level_bracket_not_level_or_level)]
pub fn or_level(
    s: &[u8],
    at: usize,
    made: usize,
    next: usize,
    names: &NameIndex,
    table: &mut [TableRow],
) -> Option<Part>
    requires { Readable (names_of names.now) s.now at made next table.old }
    ensures { PartIs disjunctions (names_of names.now) s.now at made next table.old table.new result }
{
    let mut part = and_level(s, at, made, next, names, table)?;
    while let Some(to) = word_at(s, part.place, b"or") {
        let right = and_level(s, to, made, part.next + 1, names, table)?;
        put_row(table, part.next, Connective::Or, part.atom, right.atom);
        part = Part {
            atom: names.starts.len() + made + part.next,
            ..right
        };
    }
    Some(part)
}

// Parts joined by `and`.
#[cycle(and_level_bracket_not_level_or_level)]
pub fn and_level(
    s: &[u8],
    at: usize,
    made: usize,
    next: usize,
    names: &NameIndex,
    table: &mut [TableRow],
) -> Option<Part>
    requires { Readable (names_of names.now) s.now at made next table.old }
    ensures { PartIs conjunctions (names_of names.now) s.now at made next table.old table.new result }
{
    let mut part = not_level(s, at, made, next, names, table)?;
    while let Some(to) = word_at(s, part.place, b"and") {
        let right = not_level(s, to, made, part.next + 1, names, table)?;
        put_row(table, part.next, Connective::And, part.atom, right.atom);
        part = Part {
            atom: names.starts.len() + made + part.next,
            ..right
        };
    }
    Some(part)
}

// A part behind any number of `not`.
#[cycle(and_level_bracket_not_level_or_level)]
pub fn not_level(
    s: &[u8],
    at: usize,
    made: usize,
    next: usize,
    names: &NameIndex,
    table: &mut [TableRow],
) -> Option<Part>
    requires { Readable (names_of names.now) s.now at made next table.old }
    ensures { PartIs single (names_of names.now) s.now at made next table.old table.new result }
{
    let Some(to) = word_at(s, at, b"not") else {
        return bracket(s, at, made, next, names, table);
    };
    let part = not_level(s, to, made, next + 1, names, table)?;
    put_row(table, next, Connective::Not, part.atom, 0);
    Some(Part {
        atom: names.starts.len() + made + next,
        ..part
    })
}

// A condition in brackets, or a name.
#[cycle(and_level_bracket_not_level_or_level)]
pub fn bracket(
    s: &[u8],
    at: usize,
    made: usize,
    next: usize,
    names: &NameIndex,
    table: &mut [TableRow],
) -> Option<Part>
    requires readable { Readable (names_of names.now) s.now at made next table.old }
    requires s_value { is_leading not_word (tokens (drop at s.now)) ≡ false }
    ensures { PartIs single (names_of names.now) s.now at made next table.old table.new result }
{
    let Some(inner) = opening_at(s, at) else {
        return name_at(s, at, next, names);
    };
    let part = or_level(s, inner, made, next, names, table)?;
    let place = scan::closed_at(s, part.place)?;
    Some(Part { place, ..part })
}

// The whole condition, its connectives numbered on from those that earlier lines made.
pub fn parse_condition(
    s: &[u8],
    made: usize,
    names: &NameIndex,
    table: &mut [TableRow],
) -> Option<Parse>
    requires { Readable (names_of names.now) s.now 0 made 0 table.old }
    ensures { ParseIs (names_of names.now) s.now made table.old table.new result }
{
    let part = or_level(s, 0, made, 0, names, table)?;
    scan::nothing_at(s, part.place).then_some(Parse {
        atom: part.atom,
        connectives: part.next,
    })
}
