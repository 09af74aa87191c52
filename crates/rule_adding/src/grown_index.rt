// The index of a store's rules with one rule more.
ghost use Rattle.std.specs.Prelude.{◌≤◌, length};
ghost use Rattle.kinds.specs.Limits.{atom_limit};
ghost use Rattle.kinds.specs.declared.limits.Kind.TheVariants.{Plain as PlainKind};
ghost use Rattle.stores.specs.RuleStore.{rule_at};
ghost use Rattle.stores.specs.StoredRules.{StoredRule};
ghost use Rattle.output.specs.Emitted.{Emitted, InRange};
ghost use Rattle.rule_index.specs.Growth.{grown_index};
ghost use Rattle.rule_adding.specs.GrownLists.{CountedLists, FrontList, grown_list, grown_lists};

use kinds::limits::Plain;
use output::words::{emit, push};
use used_atoms::marks::mark_rules;

// The list at the front of the words.
fn grow_list(words: &[u16], mark: bool, number: u16, out: &mut [u16], at: usize) -> usize
    requires { FrontList number mark words.now at }
    ensures { Emitted out.old at (grown_list number mark words.now) out.new result }
{
    let count = words[0];
    let end = 1 + count as usize;
    if mark {
        let first = push(count + 1, out, at);
        let last = emit(&words[1..end], out, first);
        return push(number, out, last);
    }
    emit(&words[..end], out, at)
}

// A list for each mark.
fn grow_lists(index: &[u16], marks: &[bool], number: u16, out: &mut [u16]) -> usize
    requires { CountedLists (length marks.now) index.now × (length index.now ≤ 65535) × InRange 0 (grown_lists number marks.now index.now) }
    ensures { Emitted out.old 0 (grown_lists number marks.now index.now) out.new result }
{
    let mut from: usize = 0;
    let mut next: usize = 0;
    for mark in marks {
        let size = 1 + index[from] as usize;
        next = grow_list(&index[from..], *mark, number, out, next);
        from += size;
    }
    next
}

pub fn grow_index(index: &[u16], atoms: usize, rule: &[u16], number: u16, out: &mut [u16]) -> usize
    requires { (atoms ≤ atom_limit PlainKind) × StoredRule atoms rule.now × CountedLists atoms index.now × (length index.now ≤ 65535) × InRange 0 (grown_index (rule_at rule.now) number 0 atoms index.now) }
    ensures { Emitted out.old 0 (grown_index (rule_at rule.now) number 0 atoms index.now) out.new result }
{
    let mut marks = [false; Plain::ATOMS];
    mark_rules(rule, 1, &mut marks);
    grow_lists(index, &marks[..atoms], number, out)
}
