#![tactic(auto)]
// Clause files to the stores of a preference file (document 02, W-202).
pub mod clause_line;
pub mod later;
pub mod reading;

ghost use Rattle.std.specs.Prelude.{◌≡◌, length};
ghost use Rattle.clause_rules.specs.AsPreference.{clause_lines};
ghost use Rattle.answers.specs.ReadingClauses.{clauses_answer, clauses_rules, clauses_names};

use answers::{Read, ReadRefusal};
use clause_rules::atom_names::put_names;
use clause_rules::clause::ClauseCounts;
use gathering::gathered::Gathered;
use kinds::limits::{Counts, Kind, Plain, Preference};
use kinds::refusals::Refusal;
use lines::stage::Stage;
use remaining_stores::remaining::deliver;

// The counts as those of a preference file with one class, whose names fill `used` bytes.
fn preference_counts(counts: ClauseCounts, used: usize) -> Gathered
    ensures { result ≡ clause_lines counts used }
{
    let atoms = counts.atoms;
    let rules = counts.rules;
    let occurrences = counts.occurrences;
    let words = counts.words;
    Gathered {
        stage: Stage::Ruling,
        classes: 1,
        counts: Counts {
            atoms,
            rules,
            occurrences,
        },
        made: 0,
        words,
        bytes: used,
    }
}

// Reads a clause file into the two stores of its preference program.
pub fn read_clauses(text: &[u8], rules: &mut [u16], names: &mut [u8]) -> Read
    ensures answer { result ≡ clauses_answer text.now (length rules.old) (length names.old) }
    ensures rules { rules.new ≡ clauses_rules text.now rules.old names.old }
    ensures names { names.new ≡ clauses_names text.now rules.old names.old }
{
    if Kind::TEXT < text.len() {
        return Err(ReadRefusal {
            refusal: Refusal::TextTooLong,
            line: 0,
        });
    }
    let mut words = [0u16; Plain::WORDS];
    let mut bytes = [0u8; Plain::BYTES];
    let mut bodies = [0u16; Preference::OCCURRENCES];
    let mut marks = [0u16; 2 * Preference::ATOMS];
    let counts = reading::read_lines(text, &mut words, &mut bodies, &mut marks)?;
    let used = put_names(counts.atoms, &mut bytes);
    let gathered = preference_counts(counts, used);
    deliver(Kind::Preference, gathered, &mut words, &bytes, rules, names)
}
