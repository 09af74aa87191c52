#![tactic(auto)]
// Two stores to their canonical text (document 02, W-205).
ghost use Rattle.std.specs.Prelude.{◌≡◌, ◌≤◌, length};
ghost use Rattle.kinds.specs.Sizes.{store_words};
ghost use Rattle.stores.specs.RuleStore.{StoreOf, decode};
ghost use Rattle.name_store.specs.NameStore.{NamesOf, decode_names};
ghost use Rattle.answers.specs.Writing.{fitted};
ghost use Rattle.answers.specs.WritingCanonical.{stores_canonical, canonical_answer, canonical_output};
ghost use Rattle.writer.specs.Fitted.{fitted_output};

use answers::Written;
use canonical_store::canonical_rules;
use kinds::limits::Plain;
use kinds::refusals::Refusal;
use name_check::check_names;
use store_check::store_forms::check_rules;
use writer::write_checked;

// The canonical rule store, then its text, of two stores that are known to be of the form.
fn write_by(rules: &[u16], names: &[u8], words: &mut [u16], out: &mut [u8]) -> Written
    requires { StoreOf rules.now (decode rules.now) × NamesOf names.now (decode rules.now).kind (decode rules.now).atoms (decode_names (decode rules.now).atoms names.now) × (store_words ≤ length words.old) }
    ensures answer { result ≡ fitted (stores_canonical rules.now names.now) (length out.old) }
    ensures output { out.new ≡ fitted_output (stores_canonical rules.now names.now) out.old }
{
    let end = canonical_rules(rules, words);
    write_checked(&words[..end], names, out)
}

// Writes the canonical text of two stores: refusals 10, 14, 9 in this order.
pub fn write_canonical(rules: &[u16], names: &[u8], out: &mut [u8]) -> Written
    ensures answer { result ≡ canonical_answer rules.now names.now (length out.old) }
    ensures output { out.new ≡ canonical_output rules.now names.now out.old }
{
    let kind = check_rules(rules).ok_or(Refusal::RuleStore)?;
    let atoms = rules[1] as usize;
    if !check_names(names, kind, atoms) {
        return Err(Refusal::NameStore);
    }
    let mut words = [0u16; Plain::WORDS];
    write_by(rules, names, &mut words, out)
}
