// The text of two stores of the form.
ghost use Rattle.std.specs.Prelude.{◌≡◌, get_or};
ghost use Rattle.output.specs.Emitted.{Emitted};
ghost use Rattle.text.specs.Sources.{Sources, source_text};

use crate::atoms::emit_line;
use crate::classes::emit_classes;
use crate::placed::PlacedNames;
use crate::rule_lines::emit_rules;

fn emit_plain(rules: &[u16], names: &PlacedNames, out: &mut [u8]) -> usize
    requires { Sources rules.now names.now.bytes.now names.now.starts.now × (get_or rules.now 0 0 ≡ 0) }
    ensures { Emitted out.old 0 (source_text rules.now names.now.bytes.now names.now.starts.now) out.new result }
{
    let count = rules[3] as usize;
    let declared = emit_line(b"(atoms", 0, names.starts.len(), names, out, 0);
    emit_rules(&rules[4..], count, names, out, declared)
}

fn emit_preference(rules: &[u16], names: &PlacedNames, out: &mut [u8]) -> usize
    requires { Sources rules.now names.now.bytes.now names.now.starts.now × (get_or rules.now 0 0 ≡ 0 → ⊥) }
    ensures { Emitted out.old 0 (source_text rules.now names.now.bytes.now names.now.starts.now) out.new result }
{
    let end = 4 + rules[1] as usize;
    let classes = rules[2];
    let count = rules[3] as usize;
    let declared = emit_classes(&rules[4..end], classes, names, out, 0);
    emit_rules(&rules[end..], count, names, out, declared)
}

pub fn emit_text(rules: &[u16], names: &PlacedNames, out: &mut [u8]) -> usize
    requires { Sources rules.now names.now.bytes.now names.now.starts.now }
    ensures { Emitted out.old 0 (source_text rules.now names.now.bytes.now names.now.starts.now) out.new result }
{
    if rules[0] == 0 {
        return emit_plain(rules, names, out);
    }
    emit_preference(rules, names, out)
}
