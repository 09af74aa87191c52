#![tactic(auto)]
// The index of a rule store, built (document 02, W-209).
ghost use Rattle.std.specs.Prelude.{◌≡◌, ℕ, ◌≤◌, length, get_or};
ghost use Rattle.kinds.specs.Limits.{rule_limit, atom_limit};
ghost use Rattle.kinds.specs.declared.limits.Kind.TheVariants.{Plain as KindPlain};
ghost use Rattle.rules.specs.Lists.{over};
ghost use Rattle.stores.specs.RuleStore.{rules_from};
ghost use Rattle.stores.specs.StoredRules.{StoredRules};
ghost use Rattle.rule_index.specs.Index.{index};
ghost use Rattle.rule_index.specs.Answers.{fitted, filled_words, index_answer, index_output};

use crate::counting::{count_rules, place_lists};
use crate::filling::fill_index;
use kinds::limits::Plain;
use kinds::refusals::Refusal;
use rule_index::Filled;
use store_check::header::header_of;
use store_check::store_forms::check_rules;

pub mod counting;
pub mod filling;

// Refusal 9, or the index of the rules in `words`; `counts` and `next` have a place for each atom.
fn index_with(
    words: &[u16],
    rules: usize,
    counts: &mut [usize],
    next: &mut [usize],
    out: &mut [u16],
) -> Filled
    requires stored_rules { StoredRules (length counts.old) rules words.now × (rules ≤ rule_limit KindPlain) × (length counts.old ≤ atom_limit KindPlain) × (length counts.old ≡ length next.old) }
    requires by_index { ((a : ℕ) → get_or counts.old a 0 ≡ 0) × (length (index (length counts.old) (rules_from rules words.now)) ≤ 65535) }
    ensures value { result ≡ fitted (index (length counts.old) (rules_from rules words.now)) (length out.old) }
    ensures out_after { out.new ≡ over (filled_words result (index (length counts.old) (rules_from rules words.now))) out.old }
{
    count_rules(words, rules, counts);
    let size = place_lists(counts, next);
    if out.len() < size {
        return Err(Refusal::Output);
    }
    fill_index(words, rules, counts, next, &mut out[..size]);
    Ok(size)
}

fn index_words(words: &[u16], rules: usize, atoms: usize, out: &mut [u16]) -> Filled
    requires { StoredRules atoms rules words.now × (rules ≤ rule_limit KindPlain) × (atoms ≤ atom_limit KindPlain) × (length (index atoms (rules_from rules words.now)) ≤ 65535) }
    ensures value { result ≡ fitted (index atoms (rules_from rules words.now)) (length out.old) }
    ensures out_after { out.new ≡ over (filled_words result (index atoms (rules_from rules words.now))) out.old }
{
    let mut counts = [0usize; Plain::ATOMS];
    let mut next = [0usize; Plain::ATOMS];
    index_with(words, rules, &mut counts[..atoms], &mut next[..atoms], out)
}

// Refusals 10 and 9, then the index of the store.
pub fn index_rules(rules: &[u16], out: &mut [u16]) -> Filled
    ensures answer { result ≡ index_answer rules.now (length out.old) }
    ensures output { out.new ≡ index_output rules.now out.old }
{
    let kind = check_rules(rules).ok_or(Refusal::RuleStore)?;
    let header = header_of(rules, kind);
    let start = header.start;
    index_words(&rules[start..], header.rules, header.atoms, out)
}
