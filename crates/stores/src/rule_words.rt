// The words of one rule in a rule store.
ghost use Rattle.std.specs.Prelude.{◌≡◌, ◌+◌, ◌≤◌, length};
ghost use Rattle.stores.specs.RuleStore.{places, rule_at};

// The words that the rule at the front takes.
pub fn rule_size(words: &[u16]) -> usize
    requires { 3 + places words.now ≤ length words.now }
    ensures { result ≡ 3 + places words.now }
{
    3 + words[0] as usize + words[1] as usize + words[2] as usize
}

// The atoms of a rule, list by list.
#[derive(Clone, Copy)]
pub struct RuleLists<'a> {
    pub heads: &'a [u16],
    pub bodies: &'a [u16],
    pub nots: &'a [u16],
}

// The lists of the rule at the front.
pub fn rule_lists<'a>(words: &'a [u16]) -> RuleLists<'a>
    requires { 3 + places words.now ≤ length words.now }
    ensures heads { result.heads.now ≡ (rule_at words.now).head }
    ensures bodies { result.bodies.now ≡ (rule_at words.now).body }
    ensures nots { result.nots.now ≡ (rule_at words.now).nots }
{
    let body = 3 + words[0] as usize;
    let not = body + words[1] as usize;
    let end = not + words[2] as usize;
    RuleLists {
        heads: &words[3..body],
        bodies: &words[body..not],
        nots: &words[not..end],
    }
}
