// The grown store and its index into the two lent outputs, where both have room.
ghost use Rattle.std.specs.Prelude.{◌≤◌, ◌<◌, length, get_or};
ghost use Rattle.output.specs.Emitted.{Emitted, InRange};
ghost use Rattle.rule_index.specs.Growth.{grown_store};
ghost use Rattle.rule_adding.specs.Delivered.{Delivered};

use kinds::refusals::Refusal;
use output::words::{emit, push};
use rule_index::{Grown, GrownSizes};

fn emit_store(rules: &[u16], rule: &[u16], out: &mut [u16]) -> usize
    requires { (4 ≤ length rules.now) × (get_or rules.now 3 0 < 65535) × InRange 0 (grown_store rules.now rule.now) }
    ensures { Emitted out.old 0 (grown_store rules.now rule.now) out.new result }
{
    let count = rules[3] + 1;
    let third = emit(&rules[..3], out, 0);
    let fourth = push(count, out, third);
    let behind = emit(&rules[4..], out, fourth);
    emit(rule, out, behind)
}

// `index` is the grown store's.
pub fn deliver(
    rules: &[u16],
    rule: &[u16],
    index: &[u16],
    rules_out: &mut [u16],
    index_out: &mut [u16],
) -> Grown
    requires { (4 ≤ length rules.now) × (get_or rules.now 3 0 < 65535) × InRange 0 (grown_store rules.now rule.now) × InRange 0 index.now }
    ensures { Delivered (grown_store rules.now rule.now) index.now rules_out.old index_out.old rules_out.new index_out.new result }
{
    let words = rules.len() + rule.len();
    let index_words = index.len();
    if rules_out.len() < words {
        return Err(Refusal::Output);
    }
    if index_out.len() < index_words {
        return Err(Refusal::Output);
    }
    emit_store(rules, rule, rules_out);
    emit(index, index_out, 0);
    Ok(GrownSizes { words, index_words })
}
