// The gathered stores into the two lent outputs, where both have room.
ghost use Rattle.std.specs.Prelude.{◌≡◌, ◌<◌};
ghost use Rattle.stores.specs.RuleStore.{kind_word};
ghost use Rattle.lines.specs.Said.{program_of};
ghost use Rattle.output.specs.Emitted.{Emitted};
ghost use Rattle.gathering.specs.Gathered.{state_of, Held};
ghost use Rattle.delivery.specs.Delivered.{Delivered, header_words};

use answers::{Read, ReadRefusal, ReadSizes};
use gathering::gathered::Gathered;
use kinds::limits::{Counts, Kind};
use kinds::refusals::Refusal;
use output::words::push;

fn kind_word(kind: Kind) -> u16
    ensures { result ≡ kind_word kind }
{
    match kind {
        Kind::Plain => 0,
        Kind::Preference => 1,
    }
}

pub fn put_header(kind: Kind, gathered: Gathered, words: &mut [u16]) -> usize
    requires { (gathered.counts.atoms < 65536) × (gathered.classes < 65536) × (gathered.counts.rules < 65536) }
    ensures { Emitted words.old 0 (header_words kind gathered) words.new result }
{
    let Counts { atoms, rules, .. } = gathered.counts;
    let second = push(kind_word(kind), words, 0);
    let third = push(atoms as u16, words, second);
    let fourth = push(gathered.classes as u16, words, third);
    push(rules as u16, words, fourth)
}

pub fn deliver_all(
    kind: Kind,
    gathered: Gathered,
    words: &mut [u16],
    bytes: &[u8],
    rules: &mut [u16],
    names: &mut [u8],
) -> Read
    requires { Held kind (state_of kind gathered words.old bytes.now) gathered words.old bytes.now }
    ensures { Delivered (program_of (state_of kind gathered words.old bytes.now)) (state_of kind gathered words.old bytes.now).names rules.old names.old rules.new names.new result }
{
    let filled = gathered.words;
    let used = gathered.bytes;
    if rules.len() < filled {
        return Err(ReadRefusal {
            refusal: Refusal::Output,
            line: 0,
        });
    }
    if names.len() < used {
        return Err(ReadRefusal {
            refusal: Refusal::Output,
            line: 0,
        });
    }
    put_header(kind, gathered, words);
    output::words::emit(&words[..filled], rules, 0);
    output::bytes::emit(&bytes[..used], names, 0);
    Ok(ReadSizes {
        words: filled,
        bytes: used,
    })
}
