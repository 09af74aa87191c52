// The program that is left into the two lent outputs, where both have room.
ghost use Rattle.lines.specs.Said.{program_of};
ghost use Rattle.stores.specs.Program.{ProgramForm};
ghost use Rattle.stores.specs.RuleStore.{encode};
ghost use Rattle.output.specs.Emitted.{Emitted};
ghost use Rattle.restriction.specs.Remaining.{remaining, remaining_names};
ghost use Rattle.gathering.specs.Gathered.{state_of, Held};
ghost use Rattle.delivery.specs.Delivered.{Delivered};
ghost use Rattle.remaining_stores.specs.Tables.{Tables};

use crate::left::{put_classes, put_names, put_rules};
use answers::{Read, ReadRefusal, ReadSizes};
use delivery::delivery::{deliver_all, put_header};
use gathering::gathered::Gathered;
use kinds::limits::{Counts, Kind, Preference};
use kinds::refusals::Refusal;
use used_atoms::marks::{mark_rules, number_atoms};

// The rule store of what is left: `left` atoms.
fn put_left(
    gathered: Gathered,
    left: usize,
    words: &[u16],
    bytes: &[u8],
    marks: &[bool],
    numbers: &[u16],
    rules: &mut [u16],
) -> usize
    requires { Held Kind.Preference (state_of Kind.Preference gathered words.now bytes.now) gathered words.now bytes.now × Tables (program_of (state_of Kind.Preference gathered words.now bytes.now)) marks.now numbers.now left }
    ensures { Emitted rules.old 0 (encode (remaining (program_of (state_of Kind.Preference gathered words.now bytes.now)))) rules.new result }
{
    let before = gathered.counts;
    let counts = Counts {
        atoms: left,
        ..before
    };
    let after = Gathered { counts, ..gathered };
    let end = 4 + before.atoms;
    let headed = put_header(Kind::Preference, after, rules);
    let classed = put_classes(&words[4..end], marks, rules, headed);
    put_rules(&words[end..], before.rules, numbers, rules, classed)
}

// Counted first, then written.
fn deliver_left(
    gathered: Gathered,
    left: usize,
    words: &[u16],
    bytes: &[u8],
    marks: &[bool],
    numbers: &[u16],
    rules: &mut [u16],
    names: &mut [u8],
) -> Read
    requires { Held Kind.Preference (state_of Kind.Preference gathered words.now bytes.now) gathered words.now bytes.now × Tables (program_of (state_of Kind.Preference gathered words.now bytes.now)) marks.now numbers.now left }
    ensures { Delivered (remaining (program_of (state_of Kind.Preference gathered words.now bytes.now))) (remaining_names (program_of (state_of Kind.Preference gathered words.now bytes.now)) (state_of Kind.Preference gathered words.now bytes.now).names) rules.old names.old rules.new names.new result }
{
    let atoms = gathered.counts.atoms;
    let filled = gathered.words - (atoms - left);
    let mut none = [0u8; 0];
    let used = put_names(bytes, atoms, marks, &mut none, 0);
    if rules.len() < filled {
        return Err(ReadRefusal {
            refusal: Refusal::Output,
            line: 0,
        });
    }
    if names.len() < used {
        return Err(ReadRefusal {
            refusal: Refusal::Output,
            line: 0,
        });
    }
    put_left(gathered, left, words, bytes, marks, numbers, rules);
    put_names(bytes, atoms, marks, names, 0);
    Ok(ReadSizes {
        words: filled,
        bytes: used,
    })
}

// Where all atoms stand in some rule, nothing is renumbered.
fn deliver_used(
    gathered: Gathered,
    words: &mut [u16],
    bytes: &[u8],
    rules: &mut [u16],
    names: &mut [u8],
) -> Read
    requires { Held Kind.Preference (state_of Kind.Preference gathered words.old bytes.now) gathered words.old bytes.now × ProgramForm (program_of (state_of Kind.Preference gathered words.old bytes.now)) }
    ensures { Delivered (remaining (program_of (state_of Kind.Preference gathered words.old bytes.now))) (remaining_names (program_of (state_of Kind.Preference gathered words.old bytes.now)) (state_of Kind.Preference gathered words.old bytes.now).names) rules.old names.old rules.new names.new result }
{
    let Counts {
        atoms,
        rules: count,
        ..
    } = gathered.counts;
    let end = 4 + atoms;
    let mut marks = [false; Preference::ATOMS];
    let mut numbers = [0u16; Preference::ATOMS];
    mark_rules(&words[end..], count, &mut marks);
    let left = number_atoms(&marks, atoms, &mut numbers);
    if left == atoms {
        return deliver_all(Kind::Preference, gathered, words, bytes, rules, names);
    }
    deliver_left(gathered, left, words, bytes, &marks, &numbers, rules, names)
}

// A plain program keeps all its atoms.
pub fn deliver(
    kind: Kind,
    gathered: Gathered,
    words: &mut [u16],
    bytes: &[u8],
    rules: &mut [u16],
    names: &mut [u8],
) -> Read
    requires { Held kind (state_of kind gathered words.old bytes.now) gathered words.old bytes.now × ProgramForm (program_of (state_of kind gathered words.old bytes.now)) }
    ensures { Delivered (remaining (program_of (state_of kind gathered words.old bytes.now))) (remaining_names (program_of (state_of kind gathered words.old bytes.now)) (state_of kind gathered words.old bytes.now).names) rules.old names.old rules.new names.new result }
{
    match kind {
        Kind::Plain => deliver_all(kind, gathered, words, bytes, rules, names),
        Kind::Preference => deliver_used(gathered, words, bytes, rules, names),
    }
}
