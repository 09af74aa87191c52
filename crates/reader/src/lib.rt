#![tactic(auto)]
// Text to stores, of both kinds (document 01, "The two kinds of file" and "Who can be turned back").
pub mod reading;

ghost use Rattle.std.specs.Prelude.{◌≡◌, ◌≤◌, length};
ghost use Rattle.lines.specs.Said.{program_of, placed};
ghost use Rattle.restriction.specs.Remaining.{remaining, remaining_names};
ghost use Rattle.gathering.specs.Gathered.{state_of, Held};
ghost use Rattle.delivery.specs.Delivered.{Delivered};
ghost use Rattle.reader.specs.FormedState.{Formed};
ghost use Rattle.answers.specs.Reading.{read_answer, read_rules, read_names};

use answers::{Read, ReadRefusal};
use gathering::gathered::Gathered;
use kinds::limits::{Kind, Plain};
use kinds::refusals::Refusal;
use name_store::index::BUCKETS;
use placing::made::place_made;

// The atoms that conditions made are put in their place in stores of their own.
fn deliver_placed(
    gathered: Gathered,
    words: &[u16],
    bytes: &[u8],
    rules: &mut [u16],
    names: &mut [u8],
) -> Read
    requires { Held Kind.Preference (state_of Kind.Preference gathered words.now bytes.now) gathered words.now bytes.now × Formed (state_of Kind.Preference gathered words.now bytes.now) × (1 ≤ gathered.made) }
    ensures { Delivered (remaining (program_of (placed (state_of Kind.Preference gathered words.now bytes.now)))) (remaining_names (program_of (placed (state_of Kind.Preference gathered words.now bytes.now))) (placed (state_of Kind.Preference gathered words.now bytes.now)).names) rules.old names.old rules.new names.new result }
{
    let mut placed_words = [0u16; Plain::WORDS];
    let mut placed_bytes = [0u8; Plain::BYTES];
    let placed = place_made(gathered, words, bytes, &mut placed_words, &mut placed_bytes);
    remaining_stores::remaining::deliver(
        Kind::Preference,
        placed,
        &mut placed_words,
        &placed_bytes,
        rules,
        names,
    )
}

// Without conditions every atom stands in its place.
fn deliver(
    kind: Kind,
    gathered: Gathered,
    words: &mut [u16],
    bytes: &[u8],
    rules: &mut [u16],
    names: &mut [u8],
) -> Read
    requires { Held kind (state_of kind gathered words.old bytes.now) gathered words.old bytes.now × Formed (state_of kind gathered words.old bytes.now) }
    ensures { Delivered (remaining (program_of (placed (state_of kind gathered words.old bytes.now)))) (remaining_names (program_of (placed (state_of kind gathered words.old bytes.now))) (placed (state_of kind gathered words.old bytes.now)).names) rules.old names.old rules.new names.new result }
{
    if gathered.made == 0 {
        return remaining_stores::remaining::deliver(kind, gathered, words, bytes, rules, names);
    }
    deliver_placed(gathered, words, bytes, rules, names)
}

// Reads a text of either kind into the two stores.
pub fn read(text: &[u8], rules: &mut [u16], names: &mut [u8]) -> Read
    ensures answer { result ≡ read_answer text.now (length rules.old) (length names.old) }
    ensures rules { rules.new ≡ read_rules text.now rules.old names.old }
    ensures names { names.new ≡ read_names text.now rules.old names.old }
{
    if Kind::TEXT < text.len() {
        return Err(ReadRefusal {
            refusal: Refusal::TextTooLong,
            line: 0,
        });
    }
    let kind = reading::kind_of(text);
    let mut words = [0u16; Plain::WORDS];
    let mut bytes = [0u8; Plain::BYTES];
    let mut starts = [0u16; Plain::ATOMS];
    let mut firsts = [0u16; BUCKETS];
    let mut links = [0u16; Plain::ATOMS];
    let mut marks = [0u16; Plain::ATOMS];
    let gathered = reading::read_lines(
        text,
        kind,
        &mut words,
        &mut bytes,
        &mut starts,
        &mut firsts,
        &mut links,
        &mut marks,
    )?;
    deliver(kind, gathered, &mut words, &bytes, rules, names)
}
