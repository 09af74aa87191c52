// The rules of sorted entries, one of equal ones.
ghost use Rattle.std.specs.Prelude.{◌≡◌, ◌≤◌, ◌<◌, length, drop};
ghost use Rattle.rules.specs.Lists.{flat};
ghost use Rattle.stores.specs.RuleStore.{rule_words};
ghost use Rattle.output.specs.Emitted.{Emitted, InRange};
ghost use Rattle.rule_sort.specs.RuleOrder.{entry_rule};
ghost use Rattle.entry_sort.specs.EqualKeys.{KeyedEntries};
ghost use Rattle.canonical_store.specs.KeptRules.{is_kept, kept_rules, WrittenRules};

use entry_sort::equal_keys::key_of;
use output::words::emit;
use rule_sort::comparing::{compare_entries, parts_of};
use std::cmp::Ordering;

// Where the words of the rules end, and how many rules these are.
#[derive(Clone, Copy)]
pub struct Written {
    pub next: usize,
    pub rules: usize,
}

// Whether the next entry has another rule than entry i.
fn kept(words: &[u16], order: &[u64], i: usize) -> bool
    requires { KeyedEntries words.now order.now × (i < length order.now) }
    ensures { result ≡ is_kept words.now (drop i order.now) }
{
    let next = i + 1;
    if order.len() <= next {
        return true;
    }
    let x = order[i];
    let y = order[next];
    key_of(x) != key_of(y) || compare_entries(words, x, y) != Ordering::Equal
}

fn emit_rule(words: &[u16], entry: u64, out: &mut [u16], at: usize) -> usize
    requires { (length words.now ≤ 65535) × InRange at (rule_words (entry_rule words.now entry)) }
    ensures { Emitted out.old at (rule_words (entry_rule words.now entry)) out.new result }
{
    let parts = parts_of(words, entry);
    let counts = [parts.heads as u16, parts.bodies as u16, parts.nots as u16];
    let start = parts.at;
    let end = start + parts.heads + parts.bodies + parts.nots;
    let counted = emit(&counts, out, at);
    emit(&words[start..end], out, counted)
}

pub fn emit_rules(words: &[u16], order: &[u64], out: &mut [u16], at: usize) -> Written
    requires { KeyedEntries words.now order.now × (length words.now ≤ 65535) × InRange at (flat rule_words (kept_rules words.now order.now)) }
    ensures { WrittenRules out.old at (kept_rules words.now order.now) out.new result }
{
    let mut next = at;
    let mut rules = 0;
    for i in 0..order.len() {
        if kept(words, order, i) {
            next = emit_rule(words, order[i], out, next);
            rules += 1;
        }
    }
    Written { next, rules }
}
