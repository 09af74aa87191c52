// The header, `p cnf ATOMS CLAUSES`.
ghost use Rattle.std.specs.Prelude.{◌≡◌, true, not, ◌∷◌, ◌≤◌, length, drop};
ghost use Rattle.kinds.specs.Words.{bytes};
ghost use Rattle.name_store.specs.NameStore.{same_bytes};
ghost use Rattle.rules.specs.Lists.{every};
ghost use Rattle.clauses.specs.Items.{is_separator, items};
ghost use Rattle.clauses.specs.Faults.{header_with, header_line};
ghost use Rattle.clause_items.specs.Found.{front, numbers_step, header_step};

use crate::numbers::{is_separator, number_at, skip};
use kinds::limits::Preference;
use kinds::refusals::Refusal;
use lines::scan::begins_at;

#[derive(Clone, Copy)]
pub struct Header {
    pub atoms: usize,
    pub clauses: usize,
}

// Whether the item at `at` is this word, in which no separator stands.
fn is_word(line: &[u8], at: usize, word: &[u8]) -> bool
    requires { (at ≤ length line.now) × (every (λ b. not (is_separator b)) word.now ≡ true) }
    ensures { result ≡ same_bytes (front (drop at line.now)) word.now }
{
    if !begins_at(line, at, word) {
        return false;
    }
    let to = at + word.len();
    line.len() <= to || is_separator(line[to])
}

// A header against the limits.
fn header_within(header: Header) -> Result<Header, Refusal>
    ensures { header_with header.atoms header.clauses ≡ header_step result }
{
    if Preference::ATOMS < header.atoms || Preference::RULES < header.clauses {
        return Err(Refusal::Limit);
    }
    Ok(header)
}

// The two numbers, and nothing more.
fn header_numbers(line: &[u8], at: usize) -> Option<Header>
    requires { at ≤ length line.now }
    ensures { header_line (bytes "p" ∷ bytes "cnf" ∷ items (drop at line.now)) ≡ numbers_step result }
{
    let first = number_at(line, skip(line, at))?;
    let second = number_at(line, skip(line, first.to))?;
    if skip(line, second.to) < line.len() {
        return None;
    }
    Some(Header {
        atoms: first.value,
        clauses: second.value,
    })
}

pub fn header_of(line: &[u8]) -> Result<Header, Refusal>
    ensures { header_line (items line.now) ≡ header_step result }
{
    let first = skip(line, 0);
    if !is_word(line, first, b"p") {
        return Err(Refusal::BrokenClauses);
    }
    let second = skip(line, first + 1);
    if !is_word(line, second, b"cnf") {
        return Err(Refusal::BrokenClauses);
    }
    let header = header_numbers(line, second + 3).ok_or(Refusal::BrokenClauses)?;
    header_within(header)
}
