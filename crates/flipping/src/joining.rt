// Two rising lists of rules joined: a list, and an atom's own rules, of which those that a set breaks are kept.
ghost use Rattle.std.specs.Prelude.{◌≡◌, true, cond, [], ◌≤◌, ◌<◌, min, length, get_or, drop};
ghost use Rattle.kinds.specs.Limits.{walk_atoms, rule_limit};
ghost use Rattle.kinds.specs.declared.limits.Kind.TheVariants.{Plain};
ghost use Rattle.rules.specs.Lists.{keep};
ghost use Rattle.output.specs.Emitted.{Emitted, InRange};
ghost use Rattle.stores.specs.RuleStore.{rules_from};
ghost use Rattle.rule_index.specs.Flip.{is_broken, is_rising};
ghost use Rattle.rule_index.specs.Meanings.{numbered};
ghost use Rattle.rule_index.specs.Places.{Placed};
ghost use Rattle.flipping.specs.Joined.{is_leading, behind, joined};

use crate::breaking::breaks;
use output::words::push;

// The number at a place, or `end` behind the last.
fn number_at(list: &[u16], i: usize, end: usize) -> usize
    ensures { result ≡ get_or list.now i end }
{
    match list.get(i) {
        Some(number) => *number as usize,
        None => end,
    }
}

// The smaller of two lists' numbers, or `end` behind both.
fn first_of(list: &[u16], i: usize, own: &[u16], j: usize, end: usize) -> usize
    ensures { result ≡ min (get_or list.now i end) (get_or own.now j end) }
{
    let listed = number_at(list, i, end);
    let owned = number_at(own, j, end);
    listed.min(owned)
}

// Whether the number at the place is the rule's.
fn is_at(list: &[u16], i: usize, rule: usize) -> bool
    ensures { result ≡ is_leading rule (drop i list.now) }
{
    match list.get(i) {
        Some(number) => rule == *number as usize,
        None => false,
    }
}

// Past the rule's number, if it is the one at the place.
fn past(list: &[u16], i: usize, rule: usize) -> usize
    ensures { drop result list.now ≡ behind rule (drop i list.now) }
{
    if is_at(list, i, rule) {
        return i + 1;
    }
    i
}

// Whether a rule of either list is kept: an own one is where the set breaks it.
fn is_kept(words: &[u16], places: &[usize], own: &[u16], j: usize, rule: usize, set: u64) -> bool
    requires { Placed walk_atoms (length places.now) words.now places.now × (rule < length places.now) }
    ensures { result ≡ cond (is_leading rule (drop j own.now)) (is_broken set (numbered (rules_from (length places.now) words.now) rule)) true }
{
    if !is_at(own, j, rule) {
        return true;
    }
    let from = places[rule];
    breaks(&words[from..], set)
}

// The rule's number behind those before it, if it is kept.
fn put(rule: usize, kept: bool, out: &mut [u16], at: usize) -> usize
    requires { (rule < 65536) × InRange at (keep kept rule []) }
    ensures { Emitted out.old at (keep kept rule []) out.new result }
{
    if kept {
        return push(rule as u16, out, at);
    }
    at
}

// The rules of the list that are not own ones, and the own ones that the set breaks, in rising order.
pub fn join(
    words: &[u16],
    places: &[usize],
    list: &[u16],
    own: &[u16],
    set: u64,
    out: &mut [u16],
) -> usize
    requires { Placed walk_atoms (length places.now) words.now places.now × (length places.now ≤ rule_limit Plain) × (is_rising 0 (length places.now) list.now ≡ true) × (is_rising 0 (length places.now) own.now ≡ true) }
    ensures { Emitted out.old 0 (joined (rules_from (length places.now) words.now) list.now own.now set) out.new result }
{
    let end = places.len();
    let mut i: usize = 0;
    let mut j: usize = 0;
    let mut at: usize = 0;
    let mut rule = first_of(list, 0, own, 0, end);
    while rule < end {
        let kept = is_kept(words, places, own, j, rule, set);
        at = put(rule, kept, out, at);
        i = past(list, i, rule);
        j = past(own, j, rule);
        rule = first_of(list, i, own, j, end);
    }
    at
}
