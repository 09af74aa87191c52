#![tactic(auto)]
// The entry points under their C names; a slice crosses as a pointer and a length.
ghost use Rattle.std.specs.Prelude.{◌≡◌, length};
ghost use Rattle.answers.specs.Writing.{write_answer, write_output};
ghost use Rattle.answers.specs.WritingCanonical.{canonical_answer, canonical_output};
ghost use Rattle.answers.specs.Reading.{read_answer, read_rules, read_names};
ghost use Rattle.answers.specs.ReadingClauses.{clauses_answer, clauses_rules, clauses_names};
ghost use Rattle.answers.specs.Translating.{translate_answer, translate_output};
ghost use Rattle.walks.specs.Answers.{preferred_answer, stable_answer, next_answer, place_answer};
ghost use Rattle.rule_index.specs.Answers.{index_answer, index_output, add_answer, add_store, add_index, flip_answer, flip_output};
ghost use Rattle.fields.specs.Fields.{read_fields, written_fields, verdict_fields, next_fields, place_fields, filled_fields, grown_fields};

use fields::{GrownFields, ReadFields, ValueFields, VerdictFields, WrittenFields};

#[unsafe(no_mangle)]
pub extern "C" fn rigtomato_read(text: &[u8], rules: &mut [u16], names: &mut [u8]) -> ReadFields
    ensures answer { result ≡ read_fields (read_answer text.now (length rules.old) (length names.old)) }
    ensures rules { rules.new ≡ read_rules text.now rules.old names.old }
    ensures names { names.new ≡ read_names text.now rules.old names.old }
{
    ReadFields::from(rigtomato::read(text, rules, names))
}

#[unsafe(no_mangle)]
pub extern "C" fn rigtomato_read_clauses(
    text: &[u8],
    rules: &mut [u16],
    names: &mut [u8],
) -> ReadFields
    ensures answer { result ≡ read_fields (clauses_answer text.now (length rules.old) (length names.old)) }
    ensures rules { rules.new ≡ clauses_rules text.now rules.old names.old }
    ensures names { names.new ≡ clauses_names text.now rules.old names.old }
{
    ReadFields::from(rigtomato::read_clauses(text, rules, names))
}

#[unsafe(no_mangle)]
pub extern "C" fn rigtomato_write(rules: &[u16], names: &[u8], out: &mut [u8]) -> WrittenFields
    ensures answer { result ≡ written_fields (write_answer rules.now names.now (length out.old)) }
    ensures output { out.new ≡ write_output rules.now names.now out.old }
{
    WrittenFields::from(rigtomato::write(rules, names, out))
}

#[unsafe(no_mangle)]
pub extern "C" fn rigtomato_write_canonical(
    rules: &[u16],
    names: &[u8],
    out: &mut [u8],
) -> WrittenFields
    ensures answer { result ≡ written_fields (canonical_answer rules.now names.now (length out.old)) }
    ensures output { out.new ≡ canonical_output rules.now names.now out.old }
{
    WrittenFields::from(rigtomato::write_canonical(rules, names, out))
}

#[unsafe(no_mangle)]
pub extern "C" fn rigtomato_translate(rules: &[u16], names: &[u8], out: &mut [u8]) -> WrittenFields
    ensures answer { result ≡ written_fields (translate_answer rules.now names.now (length out.old)) }
    ensures output { out.new ≡ translate_output rules.now names.now out.old }
{
    WrittenFields::from(rigtomato::translate(rules, names, out))
}

#[unsafe(no_mangle)]
pub extern "C" fn rigtomato_preferred(rules: &[u16], set: u64, budget: u64) -> VerdictFields
    ensures { result ≡ verdict_fields (preferred_answer rules.now set budget) }
{
    VerdictFields::from(rigtomato::preferred(rules, set, budget))
}

#[unsafe(no_mangle)]
pub extern "C" fn rigtomato_stable(rules: &[u16], set: u64, budget: u64) -> VerdictFields
    ensures { result ≡ verdict_fields (stable_answer rules.now set budget) }
{
    VerdictFields::from(rigtomato::stable(rules, set, budget))
}

#[unsafe(no_mangle)]
pub extern "C" fn rigtomato_next_state(rules: &[u16], start: u64, budget: u64) -> VerdictFields
    ensures { result ≡ next_fields (next_answer rules.now start budget) }
{
    VerdictFields::from(rigtomato::next_state(rules, start, budget))
}

#[unsafe(no_mangle)]
pub extern "C" fn rigtomato_place(rules: &[u16], set: u64) -> ValueFields
    ensures { result ≡ place_fields (place_answer rules.now set) }
{
    ValueFields::from(rigtomato::place(rules, set))
}

#[unsafe(no_mangle)]
pub extern "C" fn rigtomato_index_rules(rules: &[u16], out: &mut [u16]) -> ValueFields
    ensures answer { result ≡ filled_fields (index_answer rules.now (length out.old)) }
    ensures output { out.new ≡ index_output rules.now out.old }
{
    ValueFields::from(rigtomato::index_rules(rules, out))
}

#[unsafe(no_mangle)]
pub extern "C" fn rigtomato_add_rule(
    rules: &[u16],
    index: &[u16],
    rule: &[u16],
    rules_out: &mut [u16],
    index_out: &mut [u16],
) -> GrownFields
    ensures answer { result ≡ grown_fields (add_answer rules.now index.now rule.now (length rules_out.old) (length index_out.old)) }
    ensures store { rules_out.new ≡ add_store rules.now index.now rule.now rules_out.old index_out.old }
    ensures grown { index_out.new ≡ add_index rules.now index.now rule.now rules_out.old index_out.old }
{
    GrownFields::from(rigtomato::add_rule(rules, index, rule, rules_out, index_out))
}

#[unsafe(no_mangle)]
pub extern "C" fn rigtomato_flip(
    rules: &[u16],
    index: &[u16],
    list: &[u16],
    set: u64,
    atom: u64,
    out: &mut [u16],
) -> ValueFields
    ensures answer { result ≡ filled_fields (flip_answer rules.now index.now list.now set atom (length out.old)) }
    ensures output { out.new ≡ flip_output rules.now index.now list.now set atom out.old }
{
    ValueFields::from(rigtomato::flip(rules, index, list, set, atom, out))
}
