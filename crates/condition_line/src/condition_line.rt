// A condition's line against what the lines before have given.
ghost use Rattle.std.specs.Prelude.{◌≡◌, true, [], ◌∷◌, ◌++◌, ◌≤◌, ◌<◌, ◌^◌, length};
ghost use Rattle.kinds.specs.Limits.{text_limit};
ghost use Rattle.rules.specs.Lists.{some};
ghost use Rattle.lines.specs.Tokens.{tokens};
ghost use Rattle.lines.specs.Conditions.{names_in, pairs};
ghost use Rattle.lines.specs.Forms.{condition, form_of};
ghost use Rattle.lines.specs.Faults.{is_ruling, refused_name};
ghost use Rattle.gathering.specs.Gathered.{state_of, Held, HeldIndex, LineIs, opens_condition};
ghost use Rattle.condition_line.specs.ConditionLine.{kept_condition, Tested};

use condition_form::condition::condition_at;
use condition_parts::parts::parse_condition;
use condition_rules::{RulesPut, put_condition};
use condition_scan::scan::scan_condition;
use conditions::table::{Connective, TableRow};
use gathering::gathered::Gathered;
use kinds::limits::{Counts, Kind, Preference};
use kinds::refusals::Refusal;
use lines::scan;
use made_names::declared::any_declared;
use name_store::indexed::NameIndex;

// Only a preference file has conditions.
pub fn opens_condition(line: &[u8], kind: Kind) -> bool
    ensures { result ≡ opens_condition kind line.now }
{
    matches!(kind, Kind::Preference) && scan::opened_at(line, 0, b"when").is_some()
}

// A condition whose rules stand written: the counts with them, or one that passes its limit.
fn keep_condition(
    gathered: Gathered,
    connectives: usize,
    put: RulesPut,
) -> Result<Gathered, Refusal>
    requires { (connectives < 2 ^ 32) × (gathered.made < 2 ^ 32) × (gathered.counts.atoms < 2 ^ 32) × (gathered.counts.rules < 2 ^ 32) × (gathered.counts.occurrences < 2 ^ 32) × (put.rules < 2 ^ 32) × (put.occurrences < 2 ^ 32) }
    ensures { result ≡ kept_condition gathered connectives put.rules put.occurrences put.end }
{
    let before = gathered.counts;
    let made = gathered.made + connectives;
    let counts = Counts {
        rules: before.rules + put.rules,
        occurrences: before.occurrences + put.occurrences,
        ..before
    };
    let all = Counts {
        atoms: before.atoms + made,
        ..counts
    };
    if !all.within(Kind::Preference) {
        return Err(Refusal::Limit);
    }
    Ok(Gathered {
        counts,
        made,
        words: put.end,
        ..gathered
    })
}

// A condition that has passed the tests before its `a` is looked up. It is read only where there is room for its atoms.
fn add_condition(
    spoken: &[u8],
    name: &[u8],
    connectives: usize,
    gathered: Gathered,
    words: &mut [u16],
    bytes: &[u8],
    starts: &[u16],
    firsts: &[u16],
    links: &[u16],
) -> Result<Gathered, Refusal>
    requires tested { Tested (state_of Kind.Preference gathered words.old bytes.now) (tokens spoken.now) name.now connectives }
    requires held { Held Kind.Preference (state_of Kind.Preference gathered words.old bytes.now) gathered words.old bytes.now }
    requires held_index { HeldIndex gathered bytes.now starts.now firsts.now links.now }
    ensures { LineIs Kind.Preference (state_of Kind.Preference gathered words.old bytes.now) (condition (tokens spoken.now) name.now) words.new bytes.now starts.now firsts.now links.now result }
{
    let atoms = gathered.counts.atoms;
    let made = gathered.made;
    let names = NameIndex {
        bytes,
        starts: &starts[..atoms],
        firsts,
        links,
    };
    let then = names.find(name).ok_or(Refusal::Undeclared)?;
    if Preference::ATOMS < atoms + made + connectives {
        return Err(Refusal::Limit);
    }
    let unfilled = TableRow {
        kind: Connective::Not,
        left: 0,
        right: 0,
    };
    let mut table = [unfilled; Preference::ATOMS];
    let parse = parse_condition(spoken, made, &names, &mut table).ok_or(Refusal::BrokenCondition)?;
    let put = put_condition(
        &table[..connectives],
        atoms + made,
        parse.atom,
        then,
        words,
        gathered.words,
    );
    keep_condition(gathered, connectives, put)
}

// What stands between `(when` and the last `(then a))`, and a.
fn test_condition(
    spoken: &[u8],
    name: &[u8],
    refused: bool,
    gathered: Gathered,
    words: &mut [u16],
    bytes: &[u8],
    starts: &[u16],
    firsts: &[u16],
    links: &[u16],
) -> Result<Gathered, Refusal>
    requires spoken_len_bound { (length spoken.now ≤ text_limit) × (is_ruling gathered.stage ≡ true) × (pairs 0 (tokens spoken.now) ≡ true) × (refused ≡ some (refused_name Kind.Preference) (names_in (tokens spoken.now) ++ (name.now ∷ []))) }
    requires held { Held Kind.Preference (state_of Kind.Preference gathered words.old bytes.now) gathered words.old bytes.now }
    requires held_index { HeldIndex gathered bytes.now starts.now firsts.now links.now }
    ensures { LineIs Kind.Preference (state_of Kind.Preference gathered words.old bytes.now) (condition (tokens spoken.now) name.now) words.new bytes.now starts.now firsts.now links.now result }
{
    let atoms = gathered.counts.atoms;
    let made = gathered.made;
    let names = NameIndex {
        bytes,
        starts: &starts[..atoms],
        firsts,
        links,
    };
    let scanned = scan_condition(spoken, &names).ok_or(Refusal::BrokenCondition)?;
    let connectives = scanned.connectives;
    if scanned.deep {
        return Err(Refusal::DeepBrackets);
    }
    if refused {
        return Err(Refusal::Name);
    }
    if any_declared(made, connectives, &names) {
        return Err(Refusal::DeclaredTwice);
    }
    if scanned.undeclared {
        return Err(Refusal::Undeclared);
    }
    add_condition(
        spoken,
        name,
        connectives,
        gathered,
        words,
        bytes,
        starts,
        firsts,
        links,
    )
}

// A line that opens as a condition.
pub fn read_condition(
    line: &[u8],
    gathered: Gathered,
    words: &mut [u16],
    bytes: &[u8],
    starts: &[u16],
    firsts: &[u16],
    links: &[u16],
) -> Result<Gathered, Refusal>
    requires line_len_bound { (length line.now ≤ text_limit) × (is_ruling gathered.stage ≡ true) × (opens_condition Kind.Preference line.now ≡ true) }
    requires held { Held Kind.Preference (state_of Kind.Preference gathered words.old bytes.now) gathered words.old bytes.now }
    requires held_index { HeldIndex gathered bytes.now starts.now firsts.now links.now }
    ensures { LineIs Kind.Preference (state_of Kind.Preference gathered words.old bytes.now) (form_of line.now) words.new bytes.now starts.now firsts.now links.now result }
{
    let places = condition_at(line, Kind::Preference).ok_or(Refusal::BrokenForm)?;
    test_condition(
        &line[places.from..places.to],
        &line[places.start..places.end],
        places.refused,
        gathered,
        words,
        bytes,
        starts,
        firsts,
        links,
    )
}
