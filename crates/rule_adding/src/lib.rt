#![tactic(auto)]
// A rule added at a store's end, and the index with it (document 02, W-209).
pub mod delivering;
pub mod fitting;
pub mod grown_index;

ghost use Rattle.std.specs.Prelude.{◌≡◌, length};
ghost use Rattle.stores.specs.RuleStore.{decode};
ghost use Rattle.stores.specs.StoredRules.{HeaderOf};
ghost use Rattle.name_store.specs.NameStore.{same_bytes as same_words};
ghost use Rattle.rule_index.specs.Growth.{grown_store};
ghost use Rattle.rule_index.specs.Answers.{store_index, add_answer, add_store, add_index};
ghost use Rattle.rule_adding.specs.CheckedStore.{Addable};
ghost use Rattle.rule_adding.specs.Delivered.{Delivered};

use delivering::deliver;
use fitting::fits;
use grown_index::grow_index;
use index_check::is_index;
use kinds::limits::Plain;
use kinds::refusals::Refusal;
use rule_index::Grown;
use store_check::header::header_of;
use store_check::store_forms::check_rules;
use stores::rule_store::Header;

// With a rule that fits and the store's index.
fn add_checked(
    rules: &[u16],
    index: &[u16],
    rule: &[u16],
    header: Header,
    rules_out: &mut [u16],
    index_out: &mut [u16],
) -> Grown
    requires { Addable rules.now index.now rule.now header }
    ensures { Delivered (grown_store rules.now rule.now) (store_index (grown_store rules.now rule.now)) rules_out.old index_out.old rules_out.new index_out.new result }
{
    let mut grown = [0u16; Plain::INDEX];
    let count = header.rules as u16;
    let size = grow_index(index, header.atoms, rule, count, &mut grown);
    deliver(rules, rule, &grown[..size], rules_out, index_out)
}

// Where the rules start is not asked here.
fn is_store_index(rules: &[u16], header: Header, index: &[u16]) -> bool
    requires { HeaderOf (decode rules.now) rules.now header }
    ensures { result ≡ same_words index.now (store_index rules.now) }
{
    let mut places = [0usize; Plain::RULES];
    is_index(rules, header, index, &mut places)
}

// Refusals 10, 19 and 9, then the store with the rule, and its index.
pub fn add_rule(
    rules: &[u16],
    index: &[u16],
    rule: &[u16],
    rules_out: &mut [u16],
    index_out: &mut [u16],
) -> Grown
    ensures answer { result ≡ add_answer rules.now index.now rule.now (length rules_out.old) (length index_out.old) }
    ensures store { rules_out.new ≡ add_store rules.now index.now rule.now rules_out.old index_out.old }
    ensures grown { index_out.new ≡ add_index rules.now index.now rule.now rules_out.old index_out.old }
{
    let kind = check_rules(rules).ok_or(Refusal::RuleStore)?;
    let header = header_of(rules, kind);
    if !fits(rules, kind, header, rule) {
        return Err(Refusal::RuleStore);
    }
    if !is_store_index(rules, header, index) {
        return Err(Refusal::RuleIndex);
    }
    add_checked(rules, index, rule, header, rules_out, index_out)
}
