// The rest of a line behind a literal that is past a limit: a broken clause on it counts first, then a literal beyond the header's atoms.
ghost use Rattle.std.specs.Prelude.{◌≡◌, suc, ◌≤◌, ◌<◌, cond, length, drop};
ghost use Rattle.kinds.specs.Limits.{atom_limit, rule_limit};
ghost use Rattle.clauses.specs.Tokens.{line_tokens};
ghost use Rattle.clause_reader.specs.Later.{refusal_from, BegunIs, LaterIs};

use clause_items::items::{Item, item_at};
use kinds::limits::Kind;
use kinds::refusals::Refusal;

// The clauses that have begun, whether the last one is unended, and whether a literal is beyond the header's atoms.
#[derive(Clone, Copy)]
pub struct Pending {
    pub begun: usize,
    pub unended: bool,
    pub beyond: bool,
}

// What an item leaves, and where the next one is looked for.
#[derive(Clone, Copy)]
pub struct Later {
    pub pending: Pending,
    pub at: usize,
}

// One clause more, unless one is unended; the header has no more than `clauses`.
fn begin(pending: Pending, clauses: usize) -> Option<usize>
    requires { (pending.begun ≤ clauses) × (clauses ≤ rule_limit Kind.Preference) }
    ensures { BegunIs clauses (cond pending.unended pending.begun (suc pending.begun)) result }
{
    if pending.unended {
        return Some(pending.begun);
    }
    if pending.begun == clauses {
        return None;
    }
    Some(pending.begun + 1)
}

// The item at `at`; none where it breaks the line.
fn next_item(
    line: &[u8],
    at: usize,
    atoms: usize,
    clauses: usize,
    pending: Pending,
) -> Option<Later>
    requires { (at < length line.now) × (atoms ≤ atom_limit Kind.Preference) × (pending.begun ≤ clauses) × (clauses ≤ rule_limit Kind.Preference) }
    ensures { LaterIs line.now at atoms clauses pending result }
{
    match item_at(line, at) {
        Item::Stop => Some(Later {
            pending,
            at: line.len(),
        }),
        Item::Broken => None,
        Item::Ends { to } => {
            let begun = begin(pending, clauses)?;
            Some(Later {
                pending: Pending {
                    begun,
                    unended: false,
                    beyond: pending.beyond,
                },
                at: to,
            })
        }
        Item::Literal {
            positive,
            number,
            to,
        } => {
            let begun = begin(pending, clauses)?;
            Some(Later {
                pending: Pending {
                    begun,
                    unended: true,
                    beyond: pending.beyond || atoms < number,
                },
                at: to,
            })
        }
    }
}

// The refusal of the line, from `at` on.
pub fn later_refusal(
    line: &[u8],
    at: usize,
    atoms: usize,
    clauses: usize,
    pending: Pending,
) -> Refusal
    requires { (at ≤ length line.now) × (atoms ≤ atom_limit Kind.Preference) × (pending.begun ≤ clauses) × (clauses ≤ rule_limit Kind.Preference) }
    ensures { result ≡ refusal_from atoms clauses pending (line_tokens (drop at line.now)) }
{
    let mut state = pending;
    let mut place = at;
    while place < line.len() {
        let Some(after) = next_item(line, place, atoms, clauses, state) else {
            return Refusal::BrokenClauses;
        };
        state = after.pending;
        place = after.at;
    }
    if state.beyond {
        return Refusal::LiteralBeyond;
    }
    Refusal::Limit
}
