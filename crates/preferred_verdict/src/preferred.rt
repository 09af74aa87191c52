// The preferred verdict (document 01, "Verdicts"; document 02, W-207). Over masks a set is its place.
ghost use Rattle.std.specs.Prelude.{◌≡◌, ◌≤◌, ◌<◌, ◌^◌, length};
ghost use Rattle.kinds.specs.Limits.{walk_atoms, budget_limit, rule_limit};
ghost use Rattle.kinds.specs.declared.limits.Kind.TheVariants.{Plain as KindPlain, Preference as KindPreference};
ghost use Rattle.rules.specs.Lists.{All};
ghost use Rattle.stores.specs.RuleStore.{StoreOf, decode};
ghost use Rattle.walks.specs.Walk.{preferred_verdict};
ghost use Rattle.walks.specs.Answers.{preferred_answer};
ghost use Rattle.preferred_verdict.specs.SortedSearch.{SortedSearch};

use descent::verdicts::preferred_search;
use groups::grouping::fill_tables;
use groups::plan::Plan;
use kinds::limits::{Kind, Preference};
use masks::answers_at::verdict_at;
use masks::guard::check_call;
use masks::masks::{fill_masks, first_broken};
use places::turning::turned;
use walks::answers::Verdict;

// Whether some set beats `of`, which is a model of the rules with these masks.
fn search_sorted(
    care: &[u64],
    want: &[u64],
    classes: &[u64; Preference::CLASSES],
    fixed: u64,
    atoms: usize,
    of: u64,
    budget: u64,
) -> Verdict
    requires want_len { length want.now ≡ length care.now }
    requires care_len_bound { length care.now ≤ rule_limit KindPlain }
    requires all { All (λ c. c < 2 ^ walk_atoms) care.now }
    requires atoms_le_walk_atoms { atoms ≤ walk_atoms }
    requires budget_le_budget_limit { budget ≤ budget_limit }
    ensures { SortedSearch care.now want.now classes.now fixed atoms of budget result }
{
    let mut plan = [0u64; Plan::WORDS];
    fill_tables(care, want, classes, &mut plan);
    preferred_search(&mut plan, fixed, atoms, of, budget)
}

// The preferred verdict over the words of a checked preference store.
fn preferred_of(words: &[u16], set: u64, budget: u64) -> Verdict
    requires store_of { StoreOf words.now (decode words.now) }
    requires words_bound { (decode words.now).atoms ≤ walk_atoms }
    requires words_value { (decode words.now).kind ≡ KindPreference }
    requires budget_le_budget_limit { budget ≤ budget_limit }
    ensures { result ≡ preferred_verdict (decode words.now).words (decode words.now).rules set budget }
{
    let mut classes = [0u64; Preference::CLASSES];
    let mut care = [0u64; Preference::RULES];
    let mut want = [0u64; Preference::RULES];
    let sizes = fill_masks(words, &mut care, &mut want, &mut classes);
    let rules = sizes.rules;
    let atoms = sizes.atoms;
    let fixed = sizes.fixed;
    let place = turned(set, atoms);
    let broken = first_broken(&care[..rules], &want[..rules], place);
    if broken != rules {
        return Verdict::Broken {
            rule: broken as u64,
        };
    }
    let verdict = search_sorted(
        &care[..rules],
        &want[..rules],
        &classes,
        fixed,
        atoms,
        place,
        budget,
    );
    verdict_at(verdict, atoms)
}

// Whether `set` is preferred, by the rules of a preference store.
pub fn preferred(words: &[u16], set: u64, budget: u64) -> Verdict
    ensures { result ≡ preferred_answer words.now set budget }
{
    match check_call(words, Kind::Preference, set, 0, budget) {
        Ok(()) => preferred_of(words, set, budget),
        Err(refusal) => Verdict::Refused { refusal },
    }
}
