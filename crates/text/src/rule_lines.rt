// The lines of rules.
ghost use Rattle.std.specs.Prelude.{◌<◌, length};
ghost use Rattle.rules.specs.Lists.{All};
ghost use Rattle.stores.specs.RuleStore.{rule_at, rules_from};
ghost use Rattle.stores.specs.StoredRules.{StoredRule, StoredRules};
ghost use Rattle.output.specs.Emitted.{Emitted, InRange};
ghost use Rattle.text.specs.Items.{atom_part, rule_item, rule_items};
ghost use Rattle.text.specs.PlacedNames.{names_in};

use crate::atoms::emit_atoms;
use crate::placed::PlacedNames;
use output::bytes::emit;
use stores::rule_words::{rule_lists, rule_size};

// One list of a rule, after what stands before it.
fn emit_part(opening: &[u8], atoms: &[u16], names: &PlacedNames, out: &mut [u8], at: usize) -> usize
    requires { All (λ a. a < length names.now.starts.now) atoms.now × InRange at (atom_part (names_in names.now) opening.now atoms.now) }
    ensures { Emitted out.old at (atom_part (names_in names.now) opening.now atoms.now) out.new result }
{
    let opened = emit(opening, out, at);
    emit_atoms(atoms, names, out, opened)
}

// The rule at the front of the words.
fn emit_rule(words: &[u16], names: &PlacedNames, out: &mut [u8], at: usize) -> usize
    requires { StoredRule (length names.now.starts.now) words.now × InRange at (rule_item (names_in names.now) (rule_at words.now)) }
    ensures { Emitted out.old at (rule_item (names_in names.now) (rule_at words.now)) out.new result }
{
    let lists = rule_lists(words);
    let headed = emit_part(b"(rule (head", lists.heads, names, out, at);
    let bodied = emit_part(b") (body", lists.bodies, names, out, headed);
    let negated = emit_part(b") (not", lists.nots, names, out, bodied);
    emit(b"))\n", out, negated)
}

pub fn emit_rules(
    words: &[u16],
    count: usize,
    names: &PlacedNames,
    out: &mut [u8],
    at: usize,
) -> usize
    requires { StoredRules (length names.now.starts.now) count words.now × InRange at (rule_items (names_in names.now) (rules_from count words.now)) }
    ensures { Emitted out.old at (rule_items (names_in names.now) (rules_from count words.now)) out.new result }
{
    let mut next = at;
    let mut from: usize = 0;
    for _ in 0..count {
        let size = rule_size(&words[from..]);
        next = emit_rule(&words[from..], names, out, next);
        from += size;
    }
    next
}
