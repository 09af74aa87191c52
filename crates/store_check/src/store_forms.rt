// The check of a rule store (document 01, "The rule store is a slice of u16"; refusal 10).
ghost use Rattle.std.specs.Prelude.{◌≡◌, ◌+◌, ◌≤◌, length, drop, get_or};
ghost use Rattle.kinds.specs.declared.limits.Kind.TheVariants.{Preference as KindPreference};
ghost use Rattle.stores.specs.RuleStore.{kind_said, word_count, is_role, are_words, are_classes, is_program, rule_store};

use kinds::limits::{Counts, Kind, Preference};
use rule_check::rule_forms::marked_rules;
use stores::roles::{Role, role_of};

// No class above `classes`.
fn role_form(role: Role, classes: usize) -> bool
    ensures { result ≡ is_role classes role }
{
    match role {
        Role::Minimised(class) => class <= classes,
        Role::Varying | Role::Fixed => true,
        Role::Unknown => false,
    }
}

// The class words, which never fall.
fn words_form(words: &[u16], classes: usize) -> bool
    ensures { result ≡ are_words classes 0 words.now }
{
    let mut before = 0;
    for word in words {
        let word = *word;
        if !role_form(role_of(word), classes) {
            return false;
        }
        if word < before {
            return false;
        }
        before = word;
    }
    true
}

// The class count and class words of a preference store.
fn preference_classes(words: &[u16], atoms: usize, classes: usize) -> bool
    requires { 4 ≤ length words.now }
    ensures { result ≡ are_classes KindPreference atoms classes (drop 4 words.now) }
{
    if Preference::CLASSES < classes {
        return false;
    }
    if words.len() - 4 < atoms {
        return false;
    }
    words_form(&words[4..4 + atoms], classes)
}

fn classes_form(words: &[u16], kind: Kind, atoms: usize, classes: usize) -> bool
    requires { 4 ≤ length words.now }
    ensures { result ≡ are_classes kind atoms classes (drop 4 words.now) }
{
    match kind {
        Kind::Plain => classes == 0,
        Kind::Preference => preference_classes(words, atoms, classes),
    }
}

pub fn word_count(kind: Kind, atoms: usize) -> usize
    ensures { result ≡ word_count kind atoms }
{
    match kind {
        Kind::Plain => 0,
        Kind::Preference => atoms,
    }
}

// The counts of the header and all that follows it.
fn program_form(words: &[u16], kind: Kind) -> bool
    requires { 4 ≤ length words.now }
    ensures { result ≡ is_program kind (get_or words.now 1 0) (get_or words.now 2 0) (get_or words.now 3 0) (drop 4 words.now) }
{
    let atoms = words[1] as usize;
    let classes = words[2] as usize;
    let rules = words[3] as usize;
    let counts = Counts {
        atoms,
        rules,
        occurrences: 0,
    };
    if !counts.within(kind) {
        return false;
    }
    if !classes_form(words, kind, atoms, classes) {
        return false;
    }
    let start = 4 + word_count(kind, atoms);
    marked_rules(words, start, kind, atoms, rules)
}

// The kind that the first word says.
fn kind_of(word: u16) -> Option<Kind>
    ensures { result ≡ kind_said word }
{
    match word {
        0 => Some(Kind::Plain),
        1 => Some(Kind::Preference),
        _ => None,
    }
}

// Whether the words are the rule store of a program, and of which kind.
pub fn check_rules(words: &[u16]) -> Option<Kind>
    ensures { result ≡ rule_store words.now }
{
    if words.len() < 4 {
        return None;
    }
    let word = words[0];
    let kind = kind_of(word)?;
    program_form(words, kind).then_some(kind)
}
