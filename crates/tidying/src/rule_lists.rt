// The three lists of each rule.
ghost use Rattle.std.specs.Prelude.{◌≡◌, ◌++◌, ◌+◌, ◌≤◌, length, drop};
ghost use Rattle.kinds.specs.Limits.{occurrence_limit};
ghost use Rattle.kinds.specs.declared.limits.Kind.TheVariants.{Plain};
ghost use Rattle.stores.specs.RuleStore.{places, rule_at, rule_words};
ghost use Rattle.canonical.specs.Canonical.{tidy};
ghost use Rattle.tidying.specs.TidyWords.{ListedRule, ListedRules, tidy_words};

use crate::atom_list::tidy_list;
use stores::rule_words::rule_size;

// The rule at the front.
fn tidy_rule(words: &mut [u16], scratch: &mut [u16])
    requires { ListedRule words.old × (occurrence_limit Plain ≤ length scratch.old) }
    ensures { words.new ≡ rule_words (tidy (rule_at words.old)) ++ drop (3 + places words.old) words.old }
{
    let body = 3 + words[0] as usize;
    let not = body + words[1] as usize;
    let end = not + words[2] as usize;
    tidy_list(&mut words[3..body], scratch);
    tidy_list(&mut words[body..not], scratch);
    tidy_list(&mut words[not..end], scratch);
}

// So many rules from the front on.
pub fn tidy_rules(words: &mut [u16], count: usize, scratch: &mut [u16])
    requires { ListedRules count words.old × (occurrence_limit Plain ≤ length scratch.old) }
    ensures { words.new ≡ tidy_words count words.old }
{
    let mut from: usize = 0;
    for i in 0..count {
        let rest = &mut words[from..];
        let size = rule_size(rest);
        tidy_rule(rest, scratch);
        from += size;
    }
}
