// What is left of the two stores, written from the marks and the numbers.
ghost use Rattle.std.specs.Prelude.{◌≡◌, cond, [], ◌++◌, ◌≤◌, ◌<◌, length, drop, get_or};
ghost use Rattle.rules.specs.Lists.{All, keep, flat};
ghost use Rattle.rules.specs.Rules.{rename};
ghost use Rattle.name_store.specs.NameStore.{encode_names, decode_names};
ghost use Rattle.stores.specs.RuleStore.{rule_words, rule_at, rules_from};
ghost use Rattle.stores.specs.StoredRules.{StoredRule, StoredRules};
ghost use Rattle.output.specs.Emitted.{Emitted, InRange};
ghost use Rattle.restriction.specs.Atoms.{entries};
ghost use Rattle.used_atoms.specs.Marks.{marked};

use output::bytes::emit_name;
use output::words::{emit, push};
use stores::rule_words::rule_size;

fn put_class(word: u16, kept: bool, out: &mut [u16], at: usize) -> usize
    requires { InRange at (keep kept word []) }
    ensures { Emitted out.old at (keep kept word []) out.new result }
{
    if kept {
        return push(word, out, at);
    }
    at
}

// The class words of the marked atoms.
pub fn put_classes(words: &[u16], marks: &[bool], out: &mut [u16], at: usize) -> usize
    requires { (length words.now ≤ length marks.now) × InRange at (entries 0 words.now (marked (length words.now) marks.now)) }
    ensures { Emitted out.old at (entries 0 words.now (marked (length words.now) marks.now)) out.new result }
{
    let mut next = at;
    for (word, kept) in words.iter().zip(marks) {
        next = put_class(*word, *kept, out, next);
    }
    next
}

// Atoms by their new numbers.
fn put_atoms(atoms: &[u16], numbers: &[u16], out: &mut [u16], at: usize) -> usize
    requires { All (λ a. a < length numbers.now) atoms.now × InRange at (entries 0 numbers.now atoms.now) }
    ensures { Emitted out.old at (entries 0 numbers.now atoms.now) out.new result }
{
    let mut next = at;
    for a in atoms {
        next = push(numbers[*a as usize], out, next);
    }
    next
}

// The rule at the front: its counts stay.
fn put_rule(words: &[u16], numbers: &[u16], out: &mut [u16], at: usize) -> usize
    requires { StoredRule (length numbers.now) words.now × InRange at (rule_words (rename (λ a. get_or numbers.now a 0) (rule_at words.now))) }
    ensures { Emitted out.old at (rule_words (rename (λ a. get_or numbers.now a 0) (rule_at words.now))) out.new result }
{
    let size = rule_size(words);
    let counted = emit(&words[0..3], out, at);
    put_atoms(&words[3..size], numbers, out, counted)
}

pub fn put_rules(words: &[u16], count: usize, numbers: &[u16], out: &mut [u16], at: usize) -> usize
    requires { StoredRules (length numbers.now) count words.now × InRange at (flat (λ r. rule_words (rename (λ a. get_or numbers.now a 0) r)) (rules_from count words.now)) }
    ensures { Emitted out.old at (flat (λ q. rule_words (rename (λ a. get_or numbers.now a 0) q)) (rules_from count words.now)) out.new result }
{
    let mut next = at;
    let mut from: usize = 0;
    for _ in 0..count {
        let size = rule_size(&words[from..]);
        next = put_rule(&words[from..], numbers, out, next);
        from += size;
    }
    next
}

fn put_name(entry: &[u8], kept: bool, out: &mut [u8], at: usize) -> usize
    requires { InRange at (cond kept entry.now []) }
    ensures { Emitted out.old at (cond kept entry.now []) out.new result }
{
    if kept {
        return emit_name(entry, out, at);
    }
    at
}

// The names of the marked atoms, each after its length.
pub fn put_names(bytes: &[u8], n: usize, marks: &[bool], out: &mut [u8], at: usize) -> usize
    requires { (encode_names (decode_names n bytes.now) ++ drop (length (encode_names (decode_names n bytes.now))) bytes.now ≡ bytes.now) × (n ≤ length marks.now) × InRange at (encode_names (entries [] (decode_names n bytes.now) (marked n marks.now))) }
    ensures { Emitted out.old at (encode_names (entries [] (decode_names n bytes.now) (marked n marks.now))) out.new result }
{
    let mut next = at;
    let mut from: usize = 0;
    for kept in &marks[..n] {
        let end = from + 1 + bytes[from] as usize;
        next = put_name(&bytes[from..end], *kept, out, next);
        from = end;
    }
    next
}
