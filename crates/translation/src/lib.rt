#![tactic(auto)]
// The stores of a preference file to the text of its plain program (document 01, "The translation").
ghost use Rattle.std.specs.Prelude.{◌≡◌, ◌≤◌, length};
ghost use Rattle.kinds.specs.Sizes.{store_words, store_bytes};
ghost use Rattle.kinds.specs.declared.limits.Kind.TheVariants.{Preference};
ghost use Rattle.rules.specs.Lists.{over};
ghost use Rattle.stores.specs.RuleStore.{decode};
ghost use Rattle.name_store.specs.NameStore.{NamesOf, decode_names};
ghost use Rattle.answers.specs.Writing.{fitted, written_bytes};
ghost use Rattle.writer.specs.Fitted.{fitted_output};
ghost use Rattle.answers.specs.Translating.{stores_translation, translate_answer, translate_output};
ghost use Rattle.translated.specs.PreferenceStore.{PreferenceStore};

use answers::Written;
use kinds::limits::{Kind, Plain};
use kinds::refusals::Refusal;
use name_check::check_names;
use store_check::store_forms::check_rules;
use translated::translated_names::translate_names;
use translated::translated_rules::translate_rules;
use writer::write_checked;

// The stores of the plain program, then its text.
fn translate_by(
    rules: &[u16],
    names: &[u8],
    words: &mut [u16],
    bytes: &mut [u8],
    out: &mut [u8],
) -> Written
    requires { PreferenceStore rules.now × NamesOf names.now Preference (decode rules.now).atoms (decode_names (decode rules.now).atoms names.now) × (store_words ≤ length words.old) × (store_bytes ≤ length bytes.old) }
    ensures answer { result ≡ fitted (stores_translation rules.now names.now) (length out.old) }
    ensures output { out.new ≡ fitted_output (stores_translation rules.now names.now) out.old }
{
    let rules_end = translate_rules(rules, words);
    let names_end = translate_names(rules, names, bytes);
    write_checked(&words[..rules_end], &bytes[..names_end], out)
}

// Writes the text of the ten steps of two stores that are known to be of the form.
pub fn translate_checked(rules: &[u16], names: &[u8], out: &mut [u8]) -> Written
    requires { PreferenceStore rules.now × NamesOf names.now Preference (decode rules.now).atoms (decode_names (decode rules.now).atoms names.now) }
    ensures answer { result ≡ fitted (stores_translation rules.now names.now) (length out.old) }
    ensures output { out.new ≡ over (written_bytes (fitted (stores_translation rules.now names.now) (length out.old)) (stores_translation rules.now names.now)) out.old }
{
    let mut words = [0u16; Plain::WORDS];
    let mut bytes = [0u8; Plain::BYTES];
    translate_by(rules, names, &mut words, &mut bytes, out)
}

// Writes the text of the ten steps: refusals 10 (a plain store too), 14, 9 in this order.
pub fn translate(rules: &[u16], names: &[u8], out: &mut [u8]) -> Written
    ensures answer { result ≡ translate_answer rules.now names.now (length out.old) }
    ensures output { out.new ≡ translate_output rules.now names.now out.old }
{
    let kind = check_rules(rules).ok_or(Refusal::RuleStore)?;
    let Kind::Preference = kind else {
        return Err(Refusal::RuleStore);
    };
    let atoms = rules[1] as usize;
    if !check_names(names, Kind::Preference, atoms) {
        return Err(Refusal::NameStore);
    }
    translate_checked(rules, names, out)
}
