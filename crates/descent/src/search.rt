// The search for a better set: atoms are decided one after another, out before in (document 02, W-207). Over masks a set is its place.
ghost use Rattle.std.specs.Prelude.{◌≡◌, ◌+◌, ◌%◌, ◌<◌, ◌≤◌, ◌^◌};
ghost use Rattle.kinds.specs.Limits.{walk_atoms};
ghost use Rattle.groups.specs.Groups.{group_at, broken_at, broken_from, broken_in, place_limit, Bounded, Paired};
ghost use Rattle.groups.specs.Plans.{found_in, outs_in, ins_in, of_in, budget_in, one_in, classes_in, starts_in, care_in, want_in, SameSearch, HasTables};
ghost use Rattle.rules.specs.Sets.{has};
ghost use Rattle.masks.specs.Masks.{spares_m};
ghost use Rattle.descent.specs.Descent.{visit as visit_by, descend as descend_by, Told as ToldBy};
ghost use Rattle.descent.specs.Search.{may_be, better, planned, Searchable};

use groups::plan::Plan;
use kinds::limits::Preference;

#[derive(Clone, Copy)]
pub struct Told;

impl Told {
    // Past any units, so that one number tells the units, and whether a set was found.
    pub const FOUND: u64 = 4611686018427387904;
}

// Whether rule i is broken at `set`.
fn is_broken(plan: &[u64; Plan::WORDS], i: usize, set: u64) -> bool
    requires { i < place_limit }
    ensures { result ≡ broken_at (care_in plan.now) (want_in plan.now) set i }
{
    set & plan[Plan::CARE + i] == plan[Plan::WANT + i]
}

// Whether some rule from place `from` on and below `to` is broken at `set`: two in each step.
pub fn breaks(plan: &[u64; Plan::WORDS], from: usize, to: usize, set: u64) -> bool
    requires to_le_place_limit { to ≤ place_limit }
    requires from_value { (from % 2 ≡ 0) × (to % 2 ≡ 0) }
    ensures { result ≡ broken_from (care_in plan.now) (want_in plan.now) set from to }
{
    let mut i = from;
    while i < to {
        if is_broken(plan, i, set) | is_broken(plan, i + 1, set) {
            return true;
        }
        i += 2;
    }
    false
}

// Whether at the first class on which the two differ `set` has a part of what is to be bettered. One test tells that they agree on all.
fn spares(plan: &[u64; Plan::WORDS], set: u64) -> bool
    requires { HasTables plan.now }
    ensures { result ≡ spares_m (of_in plan.now) set (classes_in plan.now) }
{
    let of = plan[Plan::OF];
    for i in 0..Preference::CLASSES {
        let c = plan[Plan::CLASSES + i];
        let a = set & c;
        if a != of & c {
            return a & of == a;
        }
        if (set ^ of) & plan[Plan::MINIMISED] == 0 {
            return false;
        }
    }
    false
}

// An open final choice, its unit counted.
fn test_set(plan: &mut [u64; Plan::WORDS], set: u64, units: u64) -> u64
    requires searchable { Searchable plan.old }
    requires units_bound { units ≤ budget_in plan.old + walk_atoms + 1 }
    ensures told_by { ToldBy (budget_in plan.old) (better (classes_in plan.old) (of_in plan.old) set units) (found_in plan.old) result (found_in plan.new) }
    ensures same_search { SameSearch plan.new plan.old }
{
    if spares(plan, set) {
        plan[Plan::FOUND] = set;
        return Told::FOUND + units;
    }
    units
}

// Whether the atom with `rest` atoms after it may have the value.
fn may_be(plan: &[u64; Plan::WORDS], rest: usize, value: bool) -> bool
    requires plan_value { one_in plan.now ≡ 1 }
    requires rest_lt_walk_atoms { rest < walk_atoms }
    ensures { result ≡ has (may_be (outs_in plan.now) (ins_in plan.now) value) rest }
{
    if value {
        return plan[Plan::INS] & (plan[Plan::ONE] << rest) != 0;
    }
    plan[Plan::OUTS] & (1u64 << rest) != 0
}

// Whether a choice with `rest` atoms left is closed, where the one above is not: its last atom has just been given the value.
pub fn closes(plan: &[u64; Plan::WORDS], rest: usize, value: bool, set: u64) -> bool
    requires bounded { Bounded (starts_in plan.now) }
    requires paired { Paired (starts_in plan.now) }
    requires rest_lt_walk_atoms { rest < walk_atoms }
    ensures { result ≡ broken_in (care_in plan.now) (want_in plan.now) (starts_in plan.now) (group_at rest value) set }
{
    let out = Plan::STARTS + 2 * rest;
    let into = plan[out + 1] as usize;
    if value {
        return breaks(plan, into, plan[out + 2] as usize, set);
    }
    breaks(plan, plan[out] as usize, into, set)
}

// A choice with `rest` atoms left, whose last atom has just been given the value, and what lies below it.
#[cycle(descend_visit)]
fn visit(plan: &mut [u64; Plan::WORDS], rest: usize, value: bool, set: u64, units: u64) -> u64
    requires searchable { Searchable plan.old }
    requires rest_lt_walk_atoms { rest < walk_atoms }
    requires rest_bound { set + 2 ^ rest ≤ 2 ^ walk_atoms }
    requires rest_bound_2 { units + rest ≤ budget_in plan.old + walk_atoms }
    ensures told_by { ToldBy (budget_in plan.old) (visit_by (planned plan.old) rest value (λ s u. descend_by (planned plan.old) rest s u) set units) (found_in plan.old) result (found_in plan.new) }
    ensures same_search { SameSearch plan.new plan.old }
{
    if !may_be(plan, rest, value) {
        return units;
    }
    let used = units + 1;
    if closes(plan, rest, value, set) {
        return used;
    }
    if rest == 0 {
        return test_set(plan, set, used);
    }
    descend(plan, rest, set, used)
}

// What lies below an open choice with `left` atoms to be decided, its unit counted: the next atom is out, then in.
// The budget is looked at where a choice is left, so a search counts on past it for as long as one way down.
#[cycle(descend_visit)]
fn descend(plan: &mut [u64; Plan::WORDS], left: usize, set: u64, units: u64) -> u64
    requires searchable { Searchable plan.old }
    requires left_nonzero { (0 < left) × (left ≤ walk_atoms) }
    requires left_bound { set + 2 ^ left ≤ 2 ^ walk_atoms }
    requires left_bound_2 { units + left ≤ budget_in plan.old + walk_atoms + 1 }
    ensures told_by { ToldBy (budget_in plan.old) (descend_by (planned plan.old) left set units) (found_in plan.old) result (found_in plan.new) }
    ensures same_search { SameSearch plan.new plan.old }
{
    let rest = left - 1;
    let after = visit(plan, rest, false, set, units);
    if plan[Plan::BUDGET] < after {
        return after;
    }
    let with = set + (plan[Plan::ONE] << rest);
    visit(plan, rest, true, with, after)
}

// The search from the empty choice, which is open.
pub fn search(plan: &mut [u64; Plan::WORDS], atoms: usize) -> u64
    requires searchable { Searchable plan.old }
    requires atoms_le_walk_atoms { atoms ≤ walk_atoms }
    ensures told_by { ToldBy (budget_in plan.old) (descend_by (planned plan.old) atoms 0 1) (found_in plan.old) result (found_in plan.new) }
    ensures same_search { SameSearch plan.new plan.old }
{
    if atoms == 0 {
        return test_set(plan, 0, 1);
    }
    descend(plan, atoms, 0, 1)
}
