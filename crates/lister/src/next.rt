// The next state: the first preferred set from a start, a place, on (document 01, "Verdicts"; document 02, W-207).
ghost use Rattle.std.specs.Prelude.{◌≡◌, ◌≤◌, ◌<◌, ◌^◌, length};
ghost use Rattle.kinds.specs.Limits.{walk_atoms, budget_limit, rule_limit};
ghost use Rattle.kinds.specs.declared.limits.Kind.TheVariants.{Plain as KindPlain, Preference as KindPreference};
ghost use Rattle.rules.specs.Lists.{All};
ghost use Rattle.stores.specs.RuleStore.{StoreOf, decode};
ghost use Rattle.walks.specs.Walk.{next_verdict};
ghost use Rattle.walks.specs.Answers.{next_answer};
ghost use Rattle.lister.specs.SortedNext.{SortedNext};

use crate::candidates::next_masks;
use groups::grouping::fill_tables;
use groups::plan::Plan;
use kinds::limits::{Kind, Preference};
use masks::answers_at::next_at;
use masks::guard::check_call;
use masks::masks::fill_masks;
use walks::answers::NextState;

// The next state by the rules with these masks. Over masks a set is its place.
fn next_sorted(
    care: &[u64],
    want: &[u64],
    classes: &[u64; Preference::CLASSES],
    fixed: u64,
    atoms: usize,
    start: u64,
    budget: u64,
) -> NextState
    requires want_len { length want.now ≡ length care.now }
    requires care_len_bound { length care.now ≤ rule_limit KindPlain }
    requires all { All (λ c. c < 2 ^ walk_atoms) care.now }
    requires atoms_le_walk_atoms { atoms ≤ walk_atoms }
    requires budget_le_budget_limit { budget ≤ budget_limit }
    ensures { SortedNext care.now want.now classes.now fixed atoms start budget result }
{
    let mut plan = [0u64; Plan::WORDS];
    fill_tables(care, want, classes, &mut plan);
    next_masks(&mut plan, fixed, atoms, start, budget)
}

// The next state over the words of a checked preference store.
fn next_of(words: &[u16], start: u64, budget: u64) -> NextState
    requires store_of { StoreOf words.now (decode words.now) }
    requires words_bound { (decode words.now).atoms ≤ walk_atoms }
    requires words_value { (decode words.now).kind ≡ KindPreference }
    requires budget_le_budget_limit { budget ≤ budget_limit }
    ensures { result ≡ next_verdict (decode words.now).words (decode words.now).rules start budget }
{
    let mut classes = [0u64; Preference::CLASSES];
    let mut care = [0u64; Preference::RULES];
    let mut want = [0u64; Preference::RULES];
    let sizes = fill_masks(words, &mut care, &mut want, &mut classes);
    let rules = sizes.rules;
    let atoms = sizes.atoms;
    let fixed = sizes.fixed;
    let next = next_sorted(
        &care[..rules],
        &want[..rules],
        &classes,
        fixed,
        atoms,
        start,
        budget,
    );
    next_at(next, atoms)
}

// The first preferred set from the place `start` on, by the rules of a preference store.
pub fn next_state(words: &[u16], start: u64, budget: u64) -> NextState
    ensures { result ≡ next_answer words.now start budget }
{
    match check_call(words, Kind::Preference, start, 1, budget) {
        Ok(()) => next_of(words, start, budget),
        Err(refusal) => NextState::Refused { refusal },
    }
}
