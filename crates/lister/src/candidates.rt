// The walk over the candidates for the next state (document 02, W-207). Over masks a set is its place.
ghost use Rattle.std.specs.Prelude.{◌≡◌, not, ◌||◌, ◌+◌, ◌<◌, ◌≤◌, ◌^◌, ltb};
ghost use Rattle.kinds.specs.Limits.{walk_atoms, budget_limit};
ghost use Rattle.groups.specs.Plans.{classes_in, starts_in, care_in, want_in, SameTables, HasTables};
ghost use Rattle.descent.specs.Descent.{visit as visit_by, descend as descend_by, Told as ToldBy};
ghost use Rattle.descent.specs.Verdicts.{preferred_m};
ghost use Rattle.lister.specs.NextMasks.{candidate as candidate_by, listed, next_outcome, next_m};

use descent::search::{Told, breaks, closes};
use descent::verdicts::preferred_search;
use groups::grouping::Group;
use groups::plan::Plan;
use walks::answers::{NextState, Verdict};

// What a walk over the candidates is asked: the fixed atoms, how many atoms there are, the place to start from, the budget.
#[derive(Clone, Copy)]
struct Terms {
    fixed: u64,
    atoms: usize,
    start: u64,
    budget: u64,
    ghost atoms_le_walk_atoms: { atoms ≤ walk_atoms },
    ghost budget_le_budget_limit: { budget ≤ budget_limit },
}

// An open final choice, its unit counted: a state, or the units so far with those of its verdict.
fn candidate(
    plan: &mut [u64; Plan::WORDS],
    terms: &Terms,
    set: u64,
    units: u64,
    found: &mut u64,
) -> u64
    requires has_tables { HasTables plan.old }
    requires units_bound { units ≤ terms.now.budget + walk_atoms + 1 }
    ensures told_by { ToldBy terms.now.budget (candidate_by (preferred_m (care_in plan.old) (want_in plan.old) (starts_in plan.old) (classes_in plan.old) terms.now.fixed terms.now.atoms set) set units) found.old result found.new }
    ensures has_tables_2 { HasTables plan.new × SameTables plan.new plan.old }
{
    if terms.budget < units {
        return units;
    }
    let left = terms.budget - units;
    let verdict = preferred_search(plan, terms.fixed, terms.atoms, set, left);
    match verdict {
        Verdict::Yes { units: more } => {
            *found = set;
            Told::FOUND + (units + more)
        }
        Verdict::Broken { rule: _ } => units,
        Verdict::Beaten {
            set: _,
            units: more,
        } => units + more,
        Verdict::Spent { units: _ } => terms.budget + 1,
        Verdict::Refused { refusal: _ } => terms.budget + 1,
    }
}

// Whether a choice lies wholly before the start, where the one above does not: with its last atom in it ends where that one does.
fn is_before(start: u64, rest: usize, value: bool, set: u64) -> bool
    requires rest_lt_walk_atoms { rest < walk_atoms }
    requires rest_bound { set + 2 ^ rest ≤ 2 ^ walk_atoms }
    ensures { result ≡ not (value || ltb start (set + 2 ^ rest)) }
{
    if value {
        return false;
    }
    set + (1u64 << rest) <= start
}

// A choice with `rest` atoms left, whose last atom has just been given the value, and what lies below it.
#[cycle(descend_visit)]
fn visit(
    plan: &mut [u64; Plan::WORDS],
    terms: &Terms,
    rest: usize,
    value: bool,
    set: u64,
    units: u64,
    found: &mut u64,
) -> u64
    requires has_tables { HasTables plan.old }
    requires rest_lt_walk_atoms { rest < walk_atoms }
    requires rest_bound { set + 2 ^ rest ≤ 2 ^ walk_atoms }
    requires rest_bound_2 { units + rest ≤ terms.now.budget + walk_atoms }
    ensures told_by { ToldBy terms.now.budget (visit_by (listed plan.old terms.now.fixed terms.now.atoms terms.now.start) rest value (λ s u. descend_by (listed plan.old terms.now.fixed terms.now.atoms terms.now.start) rest s u) set units) found.old result found.new }
    ensures has_tables_2 { HasTables plan.new × SameTables plan.new plan.old }
{
    if is_before(terms.start, rest, value, set) {
        return units;
    }
    let used = units + 1;
    if closes(plan, rest, value, set) {
        return used;
    }
    if rest == 0 {
        return candidate(plan, terms, set, used, found);
    }
    descend(plan, terms, rest, set, used, found)
}

// What lies below an open choice with `left` atoms to be decided, its unit counted: the next atom is out, then in.
#[cycle(descend_visit)]
fn descend(
    plan: &mut [u64; Plan::WORDS],
    terms: &Terms,
    left: usize,
    set: u64,
    units: u64,
    found: &mut u64,
) -> u64
    requires has_tables { HasTables plan.old }
    requires left_nonzero { (0 < left) × (left ≤ walk_atoms) }
    requires left_bound { set + 2 ^ left ≤ 2 ^ walk_atoms }
    requires left_bound_2 { units + left ≤ terms.now.budget + walk_atoms + 1 }
    ensures told_by { ToldBy terms.now.budget (descend_by (listed plan.old terms.now.fixed terms.now.atoms terms.now.start) left set units) found.old result found.new }
    ensures has_tables_2 { HasTables plan.new × SameTables plan.new plan.old }
{
    let rest = left - 1;
    let with = set + (1u64 << rest);
    let after = visit(plan, terms, rest, false, set, units, found);
    if terms.budget < after {
        return after;
    }
    visit(plan, terms, rest, true, with, after, found)
}

// The walk from the empty choice, which too may lie before the start, or be closed.
fn search_from(plan: &mut [u64; Plan::WORDS], terms: &Terms, found: &mut u64) -> u64
    requires has_tables { HasTables plan.old }
    ensures told_by { ToldBy terms.now.budget (next_outcome (care_in plan.old) (want_in plan.old) (starts_in plan.old) (classes_in plan.old) terms.now.fixed terms.now.atoms terms.now.start) found.old result found.new }
    ensures has_tables_2 { HasTables plan.new × SameTables plan.new plan.old }
{
    if (1u64 << terms.atoms) <= terms.start {
        return 0;
    }
    let used: u64 = 1;
    let from = plan[Plan::STARTS + Group::ROOT] as usize;
    let to = plan[Plan::STARTS + Group::ROOT + 1] as usize;
    if breaks(plan, from, to, 0) {
        return used;
    }
    if terms.atoms == 0 {
        return candidate(plan, terms, 0, used, found);
    }
    descend(plan, terms, terms.atoms, 0, used, found)
}

// The next state over masks: the first candidate from the start on that no set beats.
pub fn next_masks(
    plan: &mut [u64; Plan::WORDS],
    fixed: u64,
    atoms: usize,
    start: u64,
    budget: u64,
) -> NextState
    requires has_tables { HasTables plan.old }
    requires budget_le_budget_limit { budget ≤ budget_limit }
    requires atoms_le_walk_atoms { atoms ≤ walk_atoms }
    ensures value { result ≡ next_m (care_in plan.old) (want_in plan.old) (starts_in plan.old) (classes_in plan.old) fixed atoms start budget }
    ensures has_tables_2 { HasTables plan.new × SameTables plan.new plan.old }
{
    let terms = Terms {
        fixed,
        atoms,
        start,
        budget,
    };
    let mut found: u64 = 0;
    let number = search_from(plan, &terms, &mut found);
    if number <= budget {
        return NextState::Nothing { units: number };
    }
    if number < Told::FOUND {
        return NextState::Spent { units: budget };
    }
    let units = number - Told::FOUND;
    if budget < units {
        return NextState::Spent { units: budget };
    }
    NextState::State { set: found, units }
}
