// A line of clauses, item by item.
ghost use Rattle.std.specs.Prelude.{◌≡◌, ◌+◌, ◌≤◌, ◌<◌, true, length, drop};
ghost use Rattle.kinds.specs.Limits.{atom_limit, rule_limit};
ghost use Rattle.clauses.specs.Tokens.{line_tokens};
ghost use Rattle.clauses.specs.Faults.{clause_line};
ghost use Rattle.clause_rules.specs.HeldClauses.{held};
ghost use Rattle.clause_reader.specs.Later.{later_refusal};
ghost use Rattle.clause_reader.specs.Reading.{InClauses, is_full, LiteralIs, ProgressIs, LineIs};

use crate::later::{Pending, later_refusal};
use clause_items::items::{Item, item_at};
use clause_rules::clause::{ClauseCounts, end_clause, take_literal};
use kinds::limits::Kind;
use kinds::refusals::Refusal;

// What the lines so far have given: the counts, once the header has come.
pub type Reading = Option<ClauseCounts>;

// What an item gives, and where the next one is looked for.
#[derive(Clone, Copy)]
pub struct Progress {
    pub counts: ClauseCounts,
    pub at: usize,
}

// Every clause of the header has come, and none is unended: an item would begin a surplus one.
pub fn is_full(counts: ClauseCounts) -> bool
    ensures { result ≡ is_full counts }
{
    counts.rules == counts.clauses && (counts.heads == 0 && counts.bodies == 0)
}

// The refusal of a line with a literal that ends at `at` and is past a limit. It takes the counts one by one, so that they stay in registers where none is.
fn past_limit(
    line: &[u8],
    at: usize,
    atoms: usize,
    clauses: usize,
    rules: usize,
    beyond: bool,
) -> Refusal
    requires { (at ≤ length line.now) × (atoms ≤ atom_limit Kind.Preference) × (rules < clauses) × (clauses ≤ rule_limit Kind.Preference) }
    ensures { result ≡ later_refusal atoms clauses (rules + 1) true beyond (line_tokens (drop at line.now)) }
{
    let pending = Pending {
        begun: rules + 1,
        unended: true,
        beyond,
    };
    later_refusal(line, at, atoms, clauses, pending)
}

// A literal that ends at `to`.
fn read_literal(
    line: &[u8],
    counts: ClauseCounts,
    positive: bool,
    number: usize,
    to: usize,
    words: &mut [u16],
    bodies: &mut [u16],
    marks: &mut [u16],
) -> Result<ClauseCounts, Refusal>
    requires { InClauses counts words.old bodies.old marks.old × (to ≤ length line.now) × (1 ≤ number) }
    ensures { LiteralIs line.now to counts (held counts words.old bodies.old) positive number words.new bodies.new marks.new result }
{
    if is_full(counts) {
        return Err(Refusal::BrokenClauses);
    }
    let atoms = counts.atoms;
    let clauses = counts.clauses;
    let rules = counts.rules;
    if atoms < number {
        return Err(past_limit(line, to, atoms, clauses, rules, true));
    }
    match take_literal(counts, positive, number - 1, words, bodies, marks) {
        Some(after) => Ok(after),
        None => Err(past_limit(line, to, atoms, clauses, rules, false)),
    }
}

// The item at `at`.
fn read_item(
    line: &[u8],
    at: usize,
    counts: ClauseCounts,
    words: &mut [u16],
    bodies: &mut [u16],
    marks: &mut [u16],
) -> Result<Progress, Refusal>
    requires { InClauses counts words.old bodies.old marks.old × (at < length line.now) }
    ensures { ProgressIs line.now at counts (held counts words.old bodies.old) words.new bodies.new marks.new result }
{
    match item_at(line, at) {
        Item::Stop => Ok(Progress {
            counts,
            at: line.len(),
        }),
        Item::Broken => Err(Refusal::BrokenClauses),
        Item::Ends { to } => {
            if is_full(counts) {
                return Err(Refusal::BrokenClauses);
            }
            let after = end_clause(counts, words, bodies);
            Ok(Progress {
                counts: after,
                at: to,
            })
        }
        Item::Literal {
            positive,
            number,
            to,
        } => {
            let after = read_literal(line, counts, positive, number, to, words, bodies, marks)?;
            Ok(Progress {
                counts: after,
                at: to,
            })
        }
    }
}

pub fn read_items(
    line: &[u8],
    counts: ClauseCounts,
    words: &mut [u16],
    bodies: &mut [u16],
    marks: &mut [u16],
) -> Result<Reading, Refusal>
    requires { InClauses counts words.old bodies.old marks.old }
    ensures { LineIs (clause_line counts.atoms counts.clauses (held counts words.old bodies.old) (line_tokens line.now)) words.new bodies.new marks.new result }
{
    let mut gathered = counts;
    let mut at: usize = 0;
    while at < line.len() {
        let after = read_item(line, at, gathered, words, bodies, marks)?;
        gathered = after.counts;
        at = after.at;
    }
    Ok(Some(gathered))
}
