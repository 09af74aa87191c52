#![tactic(auto)]
// The rules that are written for a condition (document 02, W-208), from the table of its connectives.
ghost use Rattle.std.specs.Prelude.{[], ◌∷◌, ◌++◌, ◌+◌, ◌*◌, ◌^◌, ◌≤◌, ◌<◌, length};
ghost use Rattle.rules.specs.Lists.{flat};
ghost use Rattle.rules.specs.Rules.{rule};
ghost use Rattle.stores.specs.RuleStore.{rule_words};
ghost use Rattle.output.specs.Emitted.{Emitted};
ghost use Rattle.condition_rules.specs.TableRules.{once_in, not_atoms, and_atoms, or_atoms, kind_rules, table_rules, RowsPutIs, RulesPutIs};

use conditions::table::{Connective, TableRow};
use output::words::emit;

// The place behind the rules, and how many they are.
#[derive(Clone, Copy)]
pub struct RowsPut {
    pub end: usize,
    pub rules: usize,
}

// The same with their atom occurrences.
#[derive(Clone, Copy)]
pub struct RulesPut {
    pub end: usize,
    pub rules: usize,
    pub occurrences: usize,
}

// One atom if another.
fn put_if(head: u16, body: u16, words: &mut [u16], at: usize) -> usize
    requires { at < 2 ^ 62 }
    ensures { Emitted words.old at (rule_words (rule (head ∷ []) (body ∷ []) [])) words.new result }
{
    let rule = [1, 1, 0, head, body];
    emit(&rule, words, at)
}

// For `not`: either, if nothing; nothing, if both.
fn put_not(atom: u16, part: u16, words: &mut [u16], at: usize) -> usize
    requires { at < 2 ^ 62 }
    ensures { Emitted words.old at (flat rule_words (not_atoms atom part)) words.new result }
{
    let rules = [2, 0, 0, atom, part, 0, 2, 0, atom, part];
    emit(&rules, words, at)
}

// One atom if both others; the same one twice stands once.
fn put_if_both(head: u16, left: u16, right: u16, words: &mut [u16], at: usize) -> usize
    requires { at < 2 ^ 62 }
    ensures { Emitted words.old at (rule_words (rule (head ∷ []) (once_in left right) [])) words.new result }
{
    if left == right {
        return put_if(head, left, words, at);
    }
    let rule = [1, 2, 0, head, left, right];
    emit(&rule, words, at)
}

// Either atom if another; the same one twice stands once.
fn put_either_if(one: u16, other: u16, body: u16, words: &mut [u16], at: usize) -> usize
    requires { at < 2 ^ 62 }
    ensures { Emitted words.old at (rule_words (rule (once_in one other) (body ∷ []) [])) words.new result }
{
    if one == other {
        return put_if(one, body, words, at);
    }
    let rule = [2, 1, 0, one, other, body];
    emit(&rule, words, at)
}

// For `and`: its atom if both parts, then each part if its atom.
fn put_and(atom: u16, left: u16, right: u16, words: &mut [u16], at: usize) -> usize
    requires { at < 2 ^ 61 }
    ensures { Emitted words.old at (flat rule_words (and_atoms atom left right)) words.new result }
{
    let second = put_if_both(atom, left, right, words, at);
    let third = put_if(left, atom, words, second);
    put_if(right, atom, words, third)
}

// For `or`: either part if its atom, then its atom if each part.
fn put_or(atom: u16, left: u16, right: u16, words: &mut [u16], at: usize) -> usize
    requires { at < 2 ^ 61 }
    ensures { Emitted words.old at (flat rule_words (or_atoms atom left right)) words.new result }
{
    let second = put_either_if(left, right, atom, words, at);
    let third = put_if(atom, left, words, second);
    put_if(atom, right, words, third)
}

// The rules of a row.
fn put_row(row: TableRow, atom: u16, words: &mut [u16], at: usize) -> RowsPut
    requires { at < 2 ^ 61 }
    ensures { RowsPutIs (kind_rules row.kind atom row.left row.right) words.old at words.new result }
{
    match row.kind {
        Connective::Not => RowsPut {
            end: put_not(atom, row.left, words, at),
            rules: 2,
        },
        Connective::And => RowsPut {
            end: put_and(atom, row.left, row.right, words, at),
            rules: 3,
        },
        Connective::Or => RowsPut {
            end: put_or(atom, row.left, row.right, words, at),
            rules: 3,
        },
    }
}

// The rules of the rows; `first` is the atom of the first row's connective.
pub fn put_rules(table: &[TableRow], first: usize, words: &mut [u16], at: usize) -> RowsPut
    requires { (first + length table.now ≤ 65536) × (at + 16 * length table.now < 2 ^ 61) }
    ensures { RowsPutIs (table_rules first table.now) words.old at words.new result }
{
    let mut end = at;
    let mut rules: usize = 0;
    for (i, row) in table.iter().enumerate() {
        let put = put_row(*row, (first + i) as u16, words, end);
        end = put.end;
        rules += put.rules;
    }
    RowsPut { end, rules }
}

// The rules of the rows, and last `then` if `atom`.
pub fn put_condition(
    table: &[TableRow],
    first: usize,
    atom: usize,
    then: usize,
    words: &mut [u16],
    at: usize,
) -> RulesPut
    requires { (first + length table.now ≤ 65536) × (at + 16 * length table.now < 2 ^ 61) × (atom < 65536) × (then < 65536) }
    ensures { RulesPutIs (table_rules first table.now ++ (rule (then ∷ []) (atom ∷ []) [] ∷ [])) words.old at words.new result }
{
    let rows = put_rules(table, first, words, at);
    let end = put_if(then as u16, atom as u16, words, rows.end);
    let rules = rows.rules + 1;
    RulesPut {
        end,
        rules,
        occurrences: end - at - 3 * rules,
    }
}
