#![tactic(auto)]
// Which rules are broken after an atom flips (document 02, W-209).
pub mod answering;
pub mod breaking;
pub mod joining;
pub mod own_rules;
pub mod rising;

ghost use Rattle.std.specs.Prelude.{◌≡◌, ◌&&◌, ◌^◌, ◌≤◌, ltb, length};
ghost use Rattle.kinds.specs.Limits.{walk_atoms, rule_limit};
ghost use Rattle.kinds.specs.declared.limits.Kind.TheVariants.{Plain as KindPlain};
ghost use Rattle.stores.specs.RuleStore.{StoreOf, decode};
ghost use Rattle.stores.specs.StoredRules.{HeaderOf};
ghost use Rattle.rule_index.specs.Answers.{flip_answer, flip_output};

use answering::flip_checked;
use index_check::is_index;
use kinds::limits::{Plain, Walk};
use kinds::refusals::Refusal;
use rising::is_rising;
use rule_index::Filled;
use store_check::header::header_of;
use store_check::store_forms::check_rules;
use stores::rule_store::Header;

// A set of so many atoms, and one of them.
fn is_inside(set: u64, atom: u64, atoms: usize) -> bool
    requires { atoms ≤ walk_atoms }
    ensures { result ≡ (ltb set (2 ^ atoms) && ltb atom atoms) }
{
    let n = atoms as u64;
    if (1u64 << n) <= set {
        return false;
    }
    atom < n
}

// Refusals 19, 11, 12 and 9, with a checked store; the index check fills `places` with where its rules start.
fn flip_with(
    rules: &[u16],
    header: Header,
    index: &[u16],
    list: &[u16],
    set: u64,
    atom: u64,
    places: &mut [usize],
    answer: &mut [u16],
    out: &mut [u16],
) -> Filled
    requires store_of { StoreOf rules.now (decode rules.now) × HeaderOf (decode rules.now) rules.now header }
    requires rule_limit_in_bounds { (rule_limit KindPlain ≤ length places.old) × (rule_limit KindPlain ≤ length answer.old) }
    ensures answer { result ≡ flip_answer rules.now index.now list.now set atom (length out.old) }
    ensures output { out.new ≡ flip_output rules.now index.now list.now set atom out.old }
{
    if !is_index(rules, header, index, places) {
        return Err(Refusal::RuleIndex);
    }
    if !is_rising(list, header.rules) {
        return Err(Refusal::RuleIndex);
    }
    if Walk::ATOMS < header.atoms {
        return Err(Refusal::TooManyAtoms);
    }
    if !is_inside(set, atom, header.atoms) {
        return Err(Refusal::SetNumber);
    }
    flip_checked(rules, header, index, list, set, atom, places, answer, out)
}

// Refusals 10, 19, 11, 12 and 9, then the list as the flip leaves it.
pub fn flip(
    rules: &[u16],
    index: &[u16],
    list: &[u16],
    set: u64,
    atom: u64,
    out: &mut [u16],
) -> Filled
    ensures answer { result ≡ flip_answer rules.now index.now list.now set atom (length out.old) }
    ensures output { out.new ≡ flip_output rules.now index.now list.now set atom out.old }
{
    let kind = check_rules(rules).ok_or(Refusal::RuleStore)?;
    let header = header_of(rules, kind);
    let mut places = [0usize; Plain::RULES];
    let mut answer = [0u16; Plain::RULES];
    flip_with(
        rules,
        header,
        index,
        list,
        set,
        atom,
        &mut places,
        &mut answer,
        out,
    )
}
