// From a text to what is printed, one way for both programs (document 01, "Sheets of known states").
ghost use Rattle.std.specs.Prelude.{◌≤◌, length};
ghost use Rattle.kinds.specs.Sizes.{store_words, store_bytes};
ghost use Rattle.kinds.specs.Limits.{stream_limit};
ghost use Rattle.printing.specs.Parts.{Shown};
ghost use Rattle.answers.specs.Programs.{printed, translation_of};
ghost use Rattle.programs.specs.ReadStores.{ReadStores, on_stores, printer};
ghost use Rattle.kinds.specs.declared.limits.Kind.TheVariants.{Preference};
ghost use Rattle.stores.specs.RuleStore.{decode};
ghost use Rattle.name_store.specs.NameStore.{NamesOf, decode_names};
ghost use Rattle.translated.specs.PreferenceStore.{PreferenceStore};

use kinds::limits::{Kind, Plain};
use kinds::refusals::Refusal;
use listing::listing::show_states;
use printing::printing::{show, show_refused};
use reader::read;
use translation::translate_checked;

// What the translator prints on two stores of a preference file.
fn show_translation(rules: &[u16], names: &[u8], out: &mut [u8]) -> usize
    requires { PreferenceStore rules.now × NamesOf names.now Preference (decode rules.now).atoms (decode_names (decode rules.now).atoms names.now) }
    ensures { Shown (translation_of (decode rules.now) (decode_names (decode rules.now).atoms names.now)) out.old out.new result }
{
    let mut text = [0u8; Kind::STREAM];
    match translate_checked(rules, names, &mut text) {
        Ok(bytes) => show(&text[..bytes], out),
        Err(refusal) => show_refused(refusal, 0, out),
    }
}

// What the lister prints on two stores as they were read, or else the translator.
fn show_stores(listed: bool, rules: &[u16], names: &[u8], out: &mut [u8]) -> usize
    requires { ReadStores rules.now names.now }
    ensures { Shown (on_stores (printer listed) rules.now names.now) out.old out.new result }
{
    if rules[0] == 0 {
        return show_refused(Refusal::RuleStore, 0, out);
    }
    if listed {
        return show_states(rules, names, out);
    }
    show_translation(rules, names, out)
}

// What they print on a text, with room for its stores.
fn print_by(listed: bool, text: &[u8], rules: &mut [u16], names: &mut [u8], out: &mut [u8]) -> usize
    requires { (length text.now ≤ stream_limit) × (store_words ≤ length rules.old) × (store_bytes ≤ length names.old) }
    ensures { Shown (printed (printer listed) text.now) out.old out.new result }
{
    match read(text, rules, names) {
        Ok(sizes) => show_stores(listed, &rules[..sizes.words], &names[..sizes.bytes], out),
        Err(refused) => show_refused(refused.refusal, refused.line, out),
    }
}

// What they print on a text.
pub fn print_text(listed: bool, text: &[u8], out: &mut [u8]) -> usize
    ensures { Shown (printed (printer listed) text.now) out.old out.new result }
{
    if Kind::STREAM < text.len() {
        return show_refused(Refusal::TextTooLong, 0, out);
    }
    let mut rules = [0u16; Plain::WORDS];
    let mut names = [0u8; Plain::BYTES];
    print_by(listed, text, &mut rules, &mut names, out)
}
