#![tactic(auto)]
// Stores to text (document 01, "The two kinds of file").
ghost use Rattle.std.specs.Prelude.{◌≡◌, ◌≤◌, length};
ghost use Rattle.kinds.specs.Limits.{atom_limit};
ghost use Rattle.rules.specs.Lists.{over};
ghost use Rattle.stores.specs.RuleStore.{StoreOf, decode};
ghost use Rattle.name_store.specs.NameStore.{NamesOf, decode_names};
ghost use Rattle.text.specs.Sources.{Sources, source_text};
ghost use Rattle.answers.specs.Writing.{fitted, written_bytes, stores_text, write_answer, write_output};
ghost use Rattle.writer.specs.Fitted.{fitted_output};

use answers::Written;
use kinds::limits::{Kind, Plain};
use kinds::refusals::Refusal;
use name_check::index_names;
use name_store::index::BUCKETS;
use store_check::store_forms::check_rules;
use text::atoms::place_names;
use text::placed::PlacedNames;
use text::text::emit_text;

// The text, if the output has room for it: counted first, then written.
fn write_text(rules: &[u16], names: &PlacedNames, out: &mut [u8]) -> Written
    requires { Sources rules.now names.now.bytes.now names.now.starts.now }
    ensures answer { result ≡ fitted (source_text rules.now names.now.bytes.now names.now.starts.now) (length out.old) }
    ensures output { out.new ≡ fitted_output (source_text rules.now names.now.bytes.now names.now.starts.now) out.old }
{
    let mut none = [0u8; 0];
    let bytes = emit_text(rules, names, &mut none);
    if out.len() < bytes {
        return Err(Refusal::Output);
    }
    emit_text(rules, names, out);
    Ok(bytes)
}

// The same, with room for the table of the places of names.
fn write_by(rules: &[u16], names: &[u8], table: &mut [u16], out: &mut [u8]) -> Written
    requires { StoreOf rules.now (decode rules.now) × NamesOf names.now (decode rules.now).kind (decode rules.now).atoms (decode_names (decode rules.now).atoms names.now) × (atom_limit Kind.Plain ≤ length table.old) }
    ensures answer { result ≡ fitted (stores_text rules.now names.now) (length out.old) }
    ensures output { out.new ≡ fitted_output (stores_text rules.now names.now) out.old }
{
    let atoms = rules[1] as usize;
    place_names(names, &mut table[..atoms]);
    let placed = PlacedNames {
        bytes: names,
        starts: &table[..atoms],
    };
    write_text(rules, &placed, out)
}

// Writes the text of two stores that are known to be of the form.
pub fn write_checked(rules: &[u16], names: &[u8], out: &mut [u8]) -> Written
    requires { StoreOf rules.now (decode rules.now) × NamesOf names.now (decode rules.now).kind (decode rules.now).atoms (decode_names (decode rules.now).atoms names.now) }
    ensures answer { result ≡ fitted (stores_text rules.now names.now) (length out.old) }
    ensures output { out.new ≡ over (written_bytes (fitted (stores_text rules.now names.now) (length out.old)) (stores_text rules.now names.now)) out.old }
{
    let mut table = [0u16; Plain::ATOMS];
    write_by(rules, names, &mut table, out)
}

// Writes the text of two stores: refusals 10, 14, 9 in this order.
pub fn write(rules: &[u16], names: &[u8], out: &mut [u8]) -> Written
    ensures answer { result ≡ write_answer rules.now names.now (length out.old) }
    ensures output { out.new ≡ write_output rules.now names.now out.old }
{
    let kind = check_rules(rules).ok_or(Refusal::RuleStore)?;
    let atoms = rules[1] as usize;
    let mut starts = [0u16; Plain::ATOMS];
    let mut heads = [0u16; BUCKETS];
    let mut next = [0u16; Plain::ATOMS];
    if !index_names(names, kind, atoms, &mut starts, &mut heads, &mut next) {
        return Err(Refusal::NameStore);
    }
    let placed = PlacedNames {
        bytes: names,
        starts: &starts[..atoms],
    };
    write_text(rules, &placed, out)
}
