#![tactic(auto)]
// The rule store of the canonical program (document 02, W-205).
pub mod sorted_store;
pub mod written_rules;

ghost use Rattle.std.specs.Prelude.{◌≡◌, ◌≤◌, length};
ghost use Rattle.kinds.specs.Limits.{occurrence_limit, rule_limit};
ghost use Rattle.kinds.specs.Sizes.{store_words};
ghost use Rattle.kinds.specs.declared.limits.Kind.TheVariants.{Plain as PlainKind};
ghost use Rattle.output.specs.Emitted.{Emitted, InRange};
ghost use Rattle.stores.specs.RuleStore.{StoreOf, decode, encode};
ghost use Rattle.canonical.specs.CanonicalProgram.{canonical_program};
ghost use Rattle.entry_sort.specs.EqualKeys.{KeyedEntries};
ghost use Rattle.canonical_store.specs.KeptRules.{Header, kept_words};

use kinds::limits::Plain;
use output::words::emit;
use sorted_store::{rules_start, sort_store};
use written_rules::emit_rules;

// The header and the class words of `words`, and the rules of the entries, each once.
fn emit_store(words: &[u16], order: &[u64], out: &mut [u16]) -> usize
    requires { Header words.now × KeyedEntries words.now order.now × (length order.now ≤ 65535) × InRange 0 (kept_words words.now order.now) }
    ensures { Emitted out.old 0 (kept_words words.now order.now) out.new result }
{
    let start = rules_start(words);
    let written = emit_rules(words, order, out, start);
    let header = [words[0], words[1], words[2], written.rules as u16];
    let headed = emit(&header, out, 0);
    emit(&words[4..start], out, headed);
    written.next
}

// The canonical store of the store in `words`, which is put in order there.
fn emit_sorted(
    words: &mut [u16],
    lists: &mut [u16],
    order: &mut [u64],
    spare: &mut [u64],
    out: &mut [u16],
) -> usize
    requires { StoreOf words.old (decode words.old) × (occurrence_limit PlainKind ≤ length lists.old) × (length order.old ≡ length (decode words.old).rules) × (length spare.old ≡ length order.old) }
    ensures { Emitted out.old 0 (encode (canonical_program (decode words.old))) out.new result }
{
    sort_store(words, lists, order, spare);
    emit_store(words, order, out)
}

fn emit_canonical(
    rules: &[u16],
    words: &mut [u16],
    lists: &mut [u16],
    order: &mut [u64],
    spare: &mut [u64],
    out: &mut [u16],
) -> usize
    requires { StoreOf rules.now (decode rules.now) × (store_words ≤ length words.old) × (occurrence_limit PlainKind ≤ length lists.old) × (rule_limit PlainKind ≤ length order.old) × (rule_limit PlainKind ≤ length spare.old) }
    ensures { Emitted out.old 0 (encode (canonical_program (decode rules.now))) out.new result }
{
    let size = emit(rules, words, 0);
    let count = rules[3] as usize;
    emit_sorted(
        &mut words[..size],
        lists,
        &mut order[..count],
        &mut spare[..count],
        out,
    )
}

// Writes the canonical store of a store of the form; where its words end.
pub fn canonical_rules(rules: &[u16], out: &mut [u16]) -> usize
    requires { StoreOf rules.now (decode rules.now) }
    ensures { Emitted out.old 0 (encode (canonical_program (decode rules.now))) out.new result }
{
    let mut words = [0u16; Plain::WORDS];
    let mut lists = [0u16; Plain::OCCURRENCES];
    let mut order = [0u64; Plain::RULES];
    let mut spare = [0u64; Plain::RULES];
    emit_canonical(rules, &mut words, &mut lists, &mut order, &mut spare, out)
}
