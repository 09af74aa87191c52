#![tactic(auto)]
// Whether words are the index of a rule store (document 02, W-209; refusal 19).
ghost use Rattle.std.specs.Prelude.{◌≡◌, true, ◌≤◌, length, drop};
ghost use Rattle.kinds.specs.Limits.{rule_limit};
ghost use Rattle.kinds.specs.declared.limits.Kind.TheVariants.{Plain as KindPlain};
ghost use Rattle.stores.specs.RuleStore.{decode};
ghost use Rattle.stores.specs.StoredRules.{HeaderOf};
ghost use Rattle.name_store.specs.NameStore.{same_bytes as same_words};
ghost use Rattle.rule_index.specs.Answers.{store_index};
ghost use Rattle.rule_index.specs.Places.{Placed};

use crate::lists::is_index_of;
use kinds::limits::Plain;
use stores::rule_store::Header;

pub mod lists;

// Where the answer is true, `places` has where each rule starts, counted from the first one.
pub fn is_index(rules: &[u16], header: Header, index: &[u16], places: &mut [usize]) -> bool
    requires { HeaderOf (decode rules.now) rules.now header × (rule_limit KindPlain ≤ length places.old) }
    ensures value { result ≡ same_words index.now (store_index rules.now) }
    ensures placed { result ≡ true → Placed header.atoms header.rules (drop header.start rules.now) places.new }
{
    let atoms = header.atoms;
    let start = header.start;
    let mut next = [0usize; Plain::ATOMS];
    let mut ends = [0usize; Plain::ATOMS];
    let mut marks = [0u16; Plain::ATOMS];
    is_index_of(
        &rules[start..],
        header.rules,
        index,
        &mut next[..atoms],
        &mut ends,
        &mut marks,
        places,
    )
}
