// With brackets that pair, tokens are a condition exactly when parts and connectives take turns: no recursion is needed to tell.
ghost use Rattle.std.specs.Prelude.{true, ◌≡◌, ◌≤◌, length};
ghost use Rattle.name_store.specs.NameIndex.{name_hash};
ghost use Rattle.name_store.specs.IndexedNames.{names_of};
ghost use Rattle.lines.specs.Tokens.{tokens};
ghost use Rattle.lines.specs.Conditions.{pairs};
ghost use Rattle.condition_scan.specs.Scans.{word_symbol, is_fitting, after_of, Countable, StepIs, ScanIs};

use crate::sorts::{Sort, sort_of};
use kinds::limits::Preference;
use lines::scan::{Bracket, bracket_at};
use name_store::indexed::NameIndex;
use numbering::hashed_items::{HashedItem, hashed_item_at};

// A token as the scan tells it from others: `and` and `or` are joints.
#[derive(Clone, Copy)]
enum Symbol {
    Opening,
    Closing,
    Negation,
    Joint,
    Declared,
    Undeclared,
}

// The token at a place, up to another.
#[derive(Clone, Copy)]
struct Step {
    to: usize,
    symbol: Symbol,
}

// Whether a part must come next; the open brackets, and whether they were ever too many; the connectives; whether a name was undeclared.
#[derive(Clone, Copy)]
struct Seen {
    part: bool,
    depth: usize,
    deep: bool,
    connectives: usize,
    undeclared: bool,
}

// Of a condition: whether its brackets are too many, its connectives, and whether a name is undeclared.
#[derive(Clone, Copy)]
pub struct Scan {
    pub deep: bool,
    pub connectives: usize,
    pub undeclared: bool,
}

// A word with its hash.
fn word_symbol(word: &[u8], hash: usize, names: &NameIndex) -> Symbol
    requires { hash ≡ name_hash word.now }
    ensures { result ≡ word_symbol (names_of names.now) word.now }
{
    match sort_of(word) {
        Sort::Not => Symbol::Negation,
        Sort::And | Sort::Or => Symbol::Joint,
        Sort::Name => match names.find_hashed(word, hash) {
            Some(_) => Symbol::Declared,
            None => Symbol::Undeclared,
        },
    }
}

fn step_at(s: &[u8], at: usize, names: &NameIndex) -> Option<Step>
    requires { at ≤ length s.now }
    ensures { StepIs (names_of names.now) s.now at result }
{
    let Some(HashedItem { gap, size, hash }) = hashed_item_at(s, at) else {
        return match bracket_at(s, at) {
            Bracket::Opening(place) => Some(Step {
                to: place + 1,
                symbol: Symbol::Opening,
            }),
            Bracket::Closing(place) => Some(Step {
                to: place + 1,
                symbol: Symbol::Closing,
            }),
            Bracket::Absent => None,
        };
    };
    let start = at + gap;
    let to = start + size;
    let symbol = word_symbol(&s[start..to], hash, names);
    Some(Step { to, symbol })
}

// Whether the symbol may come next.
fn fits(symbol: Symbol, part: bool) -> bool
    ensures { result ≡ is_fitting symbol part }
{
    part != matches!(symbol, Symbol::Closing | Symbol::Joint)
}

fn after(seen: Seen, symbol: Symbol) -> Seen
    requires { Countable seen symbol }
    ensures { result ≡ after_of seen symbol }
{
    let mut next = seen;
    match symbol {
        Symbol::Opening => {
            next.depth += 1;
            if Preference::BRACKETS < next.depth {
                next.deep = true;
            }
            next
        }
        Symbol::Closing => {
            next.depth -= 1;
            next
        }
        Symbol::Negation => {
            next.connectives += 1;
            next
        }
        Symbol::Joint => {
            next.connectives += 1;
            next.part = true;
            next
        }
        Symbol::Declared => {
            next.part = false;
            next
        }
        Symbol::Undeclared => {
            next.part = false;
            next.undeclared = true;
            next
        }
    }
}

pub fn scan_condition(s: &[u8], names: &NameIndex) -> Option<Scan>
    requires { pairs 0 (tokens s.now) ≡ true }
    ensures { ScanIs (names_of names.now) (tokens s.now) result }
{
    let mut at: usize = 0;
    let mut seen = Seen {
        part: true,
        depth: 0,
        deep: false,
        connectives: 0,
        undeclared: false,
    };
    while let Some(step) = step_at(s, at, names) {
        if !fits(step.symbol, seen.part) {
            return None;
        }
        seen = after(seen, step.symbol);
        at = step.to;
    }
    if seen.part {
        return None;
    }
    Some(Scan {
        deep: seen.deep,
        connectives: seen.connectives,
        undeclared: seen.undeclared,
    })
}
