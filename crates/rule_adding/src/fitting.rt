// Whether a store with one rule more is of the form (refusal 10).
ghost use Rattle.std.specs.Prelude.{◌≡◌};
ghost use Rattle.stores.specs.RuleStore.{is_store};
ghost use Rattle.rule_index.specs.Growth.{grown_store};
ghost use Rattle.rule_adding.specs.CheckedStore.{CheckedStore};

use kinds::limits::{Kind, Plain};
use rule_check::rule_forms::rule_form;
use stores::rule_store::Header;

pub fn fits(rules: &[u16], kind: Kind, header: Header, rule: &[u16]) -> bool
    requires { CheckedStore rules.now kind header }
    ensures { result ≡ is_store (grown_store rules.now rule.now) }
{
    let count = header.rules;
    if kind.rules() <= count {
        return false;
    }
    // The occurrences in the rules that are there.
    let used = rules.len() - header.start - 3 * count;
    let mut marks = [0u16; Plain::ATOMS];
    let Some(end) = rule_form(rule, 0, kind, header.atoms, used, &mut marks, 1) else {
        return false;
    };
    end.at == rule.len()
}
