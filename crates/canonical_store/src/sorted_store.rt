// The lists of a store's rules sorted, and the rules put in order.
ghost use Rattle.std.specs.Prelude.{◌≡◌, ◌+◌, ◌≤◌, length, get_or};
ghost use Rattle.kinds.specs.Limits.{occurrence_limit};
ghost use Rattle.kinds.specs.declared.limits.Kind.TheVariants.{Plain};
ghost use Rattle.stores.specs.RuleStore.{StoreOf, decode, kind_of, word_count};
ghost use Rattle.canonical_store.specs.KeptRules.{SortedStore};

use entry_sort::sort_rules;
use tidying::rule_lists::tidy_rules;

// The place of the first rule.
pub fn rules_start(words: &[u16]) -> usize
    requires { 2 ≤ length words.now }
    ensures { result ≡ 4 + word_count (kind_of (get_or words.now 0 0)) (get_or words.now 1 0) }
{
    if words[0] == 0 {
        return 4;
    }
    4 + words[1] as usize
}

pub fn sort_store(words: &mut [u16], lists: &mut [u16], order: &mut [u64], spare: &mut [u64])
    requires { StoreOf words.old (decode words.old) × (occurrence_limit Plain ≤ length lists.old) × (length order.old ≡ length (decode words.old).rules) × (length spare.old ≡ length order.old) }
    ensures { SortedStore (decode words.old) words.new order.new }
{
    let start = rules_start(words);
    let atoms = words[1];
    tidy_rules(&mut words[start..], order.len(), lists);
    sort_rules(words, start, atoms, order, spare);
}
