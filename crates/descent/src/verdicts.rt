// What a search tells, as a verdict over places.
ghost use Rattle.std.specs.Prelude.{◌≡◌, ◌≤◌};
ghost use Rattle.kinds.specs.Limits.{walk_atoms, budget_limit};
ghost use Rattle.groups.specs.Plans.{found_in, classes_in, starts_in, care_in, want_in, SameTables, HasTables};
ghost use Rattle.walks.specs.Walk.{capped};
ghost use Rattle.descent.specs.Search.{with_terms};
ghost use Rattle.descent.specs.Verdicts.{all_of, past_budget, one_class, preferred_m, stable_m};

use crate::search::{Told, search};
use groups::plan::Plan;
use walks::answers::Verdict;

// All of so many atoms.
pub fn all_of(atoms: usize) -> u64
    requires { atoms ≤ walk_atoms }
    ensures { result ≡ all_of atoms }
{
    (1u64 << atoms) - 1
}

// Gives a plan the terms of a search.
fn set_terms(plan: &mut [u64; Plan::WORDS], outs: u64, ins: u64, of: u64, budget: u64)
    ensures { plan.new ≡ with_terms outs ins of budget plan.old }
{
    plan[Plan::OUTS] = outs;
    plan[Plan::INS] = ins;
    plan[Plan::OF] = of;
    plan[Plan::BUDGET] = budget;
    plan[Plan::ONE] = 1;
}

// What a number past the budget tells: the set found, or that the budget is spent.
fn past_budget(plan: &[u64; Plan::WORDS], number: u64, budget: u64) -> Verdict
    ensures { result ≡ past_budget budget number (found_in plan.now) }
{
    if number < Told::FOUND {
        return Verdict::Spent { units: budget };
    }
    let units = number - Told::FOUND;
    if budget < units {
        return Verdict::Spent { units: budget };
    }
    Verdict::Beaten {
        set: plan[Plan::FOUND],
        units,
    }
}

// Whether some set of so many atoms beats `of`, which is a model: fixed atoms take only its value.
pub fn preferred_search(
    plan: &mut [u64; Plan::WORDS],
    fixed: u64,
    atoms: usize,
    of: u64,
    budget: u64,
) -> Verdict
    requires has_tables { HasTables plan.old }
    requires budget_le_budget_limit { budget ≤ budget_limit }
    requires atoms_le_walk_atoms { atoms ≤ walk_atoms }
    ensures value { result ≡ capped budget (preferred_m (care_in plan.old) (want_in plan.old) (starts_in plan.old) (classes_in plan.old) fixed atoms of) }
    ensures has_tables_2 { HasTables plan.new × SameTables plan.new plan.old }
{
    let all = all_of(atoms);
    let held = fixed & of;
    set_terms(plan, all ^ held, all ^ (fixed ^ held), of, budget);
    let number = search(plan, atoms);
    if number <= budget {
        return Verdict::Yes { units: number };
    }
    past_budget(plan, number, budget)
}

// Whether some proper subset of `of`, which is a model of the rules, is one too; all atoms are one class. The final choice `of` comes last; its unit is taken back.
pub fn stable_search(plan: &mut [u64; Plan::WORDS], atoms: usize, of: u64, budget: u64) -> Verdict
    requires has_tables { HasTables plan.old }
    requires plan_value { classes_in plan.old ≡ one_class atoms }
    requires budget_le_budget_limit { budget ≤ budget_limit }
    requires atoms_le_walk_atoms { atoms ≤ walk_atoms }
    ensures { result ≡ capped budget (stable_m (care_in plan.old) (want_in plan.old) (starts_in plan.old) atoms of) }
{
    let all = all_of(atoms);
    set_terms(plan, all, of, of, budget + 1);
    let number = search(plan, atoms);
    if number <= budget + 1 {
        return Verdict::Yes { units: number - 1 };
    }
    past_budget(plan, number, budget)
}
