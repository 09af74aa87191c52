// The stable verdict (document 01, "Verdicts"; document 02, W-207). Over masks a set is its place.
ghost use Rattle.std.specs.Prelude.{◌≡◌, ◌<◌, ◌≤◌, ◌^◌, length};
ghost use Rattle.kinds.specs.Limits.{walk_atoms, budget_limit, rule_limit};
ghost use Rattle.kinds.specs.declared.limits.Kind.TheVariants.{Plain as KindPlain};
ghost use Rattle.rules.specs.Lists.{All};
ghost use Rattle.stores.specs.RuleStore.{StoreOf, decode};
ghost use Rattle.walks.specs.Walk.{stable_verdict};
ghost use Rattle.walks.specs.Answers.{stable_answer};
ghost use Rattle.stable_verdict.specs.SortedSearch.{SortedSearch};

use crate::reduct::{fill_reduct, marked_at};
use descent::verdicts::{all_of, stable_search};
use groups::grouping::fill_tables;
use groups::plan::Plan;
use kinds::limits::{Kind, Plain, Preference};
use masks::answers_at::verdict_at;
use masks::guard::check_call;
use masks::masks::first_broken;
use places::turning::turned;
use walks::answers::Verdict;

// Whether some proper subset of `of`, which is a model of the rules with these masks, is one too.
fn search_sorted(care: &[u64], want: &[u64], atoms: usize, of: u64, budget: u64) -> Verdict
    requires want_len { length want.now ≡ length care.now }
    requires care_len_bound { length care.now ≤ rule_limit KindPlain }
    requires all { All (λ c. c < 2 ^ walk_atoms) care.now }
    requires atoms_le_walk_atoms { atoms ≤ walk_atoms }
    requires budget_le_budget_limit { budget ≤ budget_limit }
    ensures { SortedSearch care.now want.now atoms of budget result }
{
    let mut classes = [0u64; Preference::CLASSES];
    classes[0] = all_of(atoms);
    let mut plan = [0u64; Plan::WORDS];
    fill_tables(care, want, &classes, &mut plan);
    stable_search(&mut plan, atoms, of, budget)
}

// The stable verdict over the words of a checked plain store.
fn stable_of(words: &[u16], set: u64, budget: u64) -> Verdict
    requires store_of { StoreOf words.now (decode words.now) }
    requires words_bound { (decode words.now).atoms ≤ walk_atoms }
    requires words_value { (decode words.now).kind ≡ KindPlain }
    requires set_bound { set < 2 ^ (decode words.now).atoms }
    requires budget_le_budget_limit { budget ≤ budget_limit }
    ensures { result ≡ stable_verdict (decode words.now).atoms (decode words.now).rules set budget }
{
    let n = words[1] as usize;
    let rules = words[3] as usize;
    let mut marks = [false; Plain::RULES];
    let mut care = [0u64; Plain::RULES];
    let mut want = [0u64; Plain::RULES];
    let kept = fill_reduct(&words[4..], rules, set, n, &mut marks, &mut care, &mut want);
    let place = turned(set, n);
    let broken = first_broken(&care[..kept], &want[..kept], place);
    if broken != kept {
        return Verdict::Broken {
            rule: marked_at(&marks[..rules], broken) as u64,
        };
    }
    let verdict = search_sorted(&care[..kept], &want[..kept], n, place, budget);
    verdict_at(verdict, n)
}

// Whether `set` is stable, by the rules of a plain store.
pub fn stable(words: &[u16], set: u64, budget: u64) -> Verdict
    ensures { result ≡ stable_answer words.now set budget }
{
    match check_call(words, Kind::Plain, set, 0, budget) {
        Ok(()) => stable_of(words, set, budget),
        Err(refusal) => Verdict::Refused { refusal },
    }
}
