// A rule's line against what the lines before have given.
ghost use Rattle.std.specs.Prelude.{◌≡◌, ◌+◌, ◌^◌, ◌≤◌, ◌<◌, true, false, [], ◌∷◌, length};
ghost use Rattle.rules.specs.Lists.{is_empty};
ghost use Rattle.kinds.specs.Limits.{text_limit};
ghost use Rattle.output.specs.Emitted.{Emitted};
ghost use Rattle.lines.specs.Lines.{is_ended};
ghost use Rattle.lines.specs.Tokens.{tokens};
ghost use Rattle.lines.specs.Forms.{form_of};
ghost use Rattle.lines.specs.Faults.{is_ruling};
ghost use Rattle.gathering.specs.Gathered.{state_of, Held, HeldIndex, HeldMarks, LineIs, MarksAre, filled_count, Kept, opens_condition, refusal_of, blank_line};

use crate::gathered::Gathered;
use kinds::limits::{Counts, Kind};
use kinds::refusals::Refusal;
use lines::forms::Shape;
use lines::stage::Stage;
use lines::{forms, scan};
use name_store::indexed::NameIndex;
use numbering::numbers;
use numbering::numbers::RuleCounts;
use output::words::push;

pub fn is_ruling(stage: Stage) -> bool
    ensures { result ≡ is_ruling stage }
{
    matches!(stage, Stage::Ruling)
}

// A filled `not` list in a preference file.
fn is_filled(kind: Kind, nots: usize) -> bool
    ensures { result ≡ filled_count kind nots }
{
    matches!(kind, Kind::Preference) && 0 < nots
}

pub fn put_counts(heads: usize, bodies: usize, nots: usize, words: &mut [u16], at: usize) -> usize
    requires { (heads < 65536) × (bodies < 65536) × (nots < 65536) × (at < 2 ^ 62) }
    ensures { Emitted words.old at (heads ∷ bodies ∷ nots ∷ []) words.new result }
{
    let second = push(heads as u16, words, at);
    let third = push(bodies as u16, words, second);
    push(nots as u16, words, third)
}

// A rule whose numbers stand written, behind its three counts.
fn keep_rule(
    kind: Kind,
    gathered: Gathered,
    rule: RuleCounts,
    words: &mut [u16],
) -> Result<Gathered, Refusal>
    requires { (rule.heads + rule.bodies + rule.nots < 2 ^ 62) × (gathered.counts.rules < 2 ^ 62) × (gathered.counts.occurrences < 2 ^ 62) × (gathered.words < 2 ^ 62) }
    ensures { Kept kind gathered rule.heads rule.bodies rule.nots rule.end words.old words.new result }
{
    let RuleCounts {
        heads,
        bodies,
        nots,
        ..
    } = rule;
    let before = gathered.counts;
    let counts = Counts {
        rules: before.rules + 1,
        occurrences: before.occurrences + (heads + bodies + nots),
        ..before
    };
    if !counts.within(kind) {
        return Err(Refusal::Limit);
    }
    if is_filled(kind, nots) {
        return Err(Refusal::FilledNot);
    }
    put_counts(heads, bodies, nots, words, gathered.words);
    Ok(Gathered {
        counts,
        words: rule.end,
        ..gathered
    })
}

// Why a line is no rule with declared names: only then are its names looked at one by one.
fn rule_refusal(line: &[u8], kind: Kind) -> Refusal
    ensures { result ≡ refusal_of kind (form_of line.now) }
{
    match forms::shape_of(line, kind) {
        Shape::Rule { refused } => {
            if refused {
                return Refusal::Name;
            }
            Refusal::Undeclared
        }
        Shape::Blank => Refusal::BrokenForm,
        Shape::Declares(_) => Refusal::BrokenForm,
        Shape::Other => Refusal::BrokenForm,
    }
}

// A line behind the declarations that is not blank.
fn add_rule(
    line: &[u8],
    kind: Kind,
    gathered: Gathered,
    words: &mut [u16],
    bytes: &[u8],
    starts: &[u16],
    firsts: &[u16],
    links: &[u16],
    marks: &mut [u16],
) -> Result<Gathered, Refusal>
    requires line_len_bound { (length line.now ≤ text_limit) × (is_ruling gathered.stage ≡ true) × (opens_condition kind line.now ≡ false) × (is_empty (tokens line.now) ≡ false) }
    requires held { Held kind (state_of kind gathered words.old bytes.now) gathered words.old bytes.now }
    requires held_index { HeldIndex gathered bytes.now starts.now firsts.now links.now }
    requires held_marks { HeldMarks gathered marks.old }
    ensures line_is { LineIs kind (state_of kind gathered words.old bytes.now) (form_of line.now) words.new bytes.now starts.now firsts.now links.now result }
    ensures marks_are { MarksAre marks.new result }
{
    let Counts { atoms, rules, .. } = gathered.counts;
    let at = gathered.words + 3;
    let stamp = (3 * rules + 1) as u16;
    let names = NameIndex {
        bytes,
        starts: &starts[..atoms],
        firsts,
        links,
    };
    let Some(rule) = numbers::rule_numbers(line, &names, marks, stamp, words, at) else {
        return Err(rule_refusal(line, kind));
    };
    if rule.twice {
        return Err(Refusal::TwiceInList);
    }
    keep_rule(kind, gathered, rule, words)
}

// A blank line changes nothing.
fn pass_blank(line: &[u8], gathered: Gathered) -> Result<Gathered, Refusal>
    ensures { result ≡ blank_line gathered (is_ended line.now) }
{
    if scan::is_ended(line) {
        return Ok(gathered);
    }
    Err(Refusal::BrokenForm)
}

// A line behind the declarations that does not open as a condition.
pub fn read_rule(
    line: &[u8],
    kind: Kind,
    gathered: Gathered,
    words: &mut [u16],
    bytes: &[u8],
    starts: &[u16],
    firsts: &[u16],
    links: &[u16],
    marks: &mut [u16],
) -> Result<Gathered, Refusal>
    requires line_len_bound { (length line.now ≤ text_limit) × (is_ruling gathered.stage ≡ true) × (opens_condition kind line.now ≡ false) }
    requires held { Held kind (state_of kind gathered words.old bytes.now) gathered words.old bytes.now }
    requires held_index { HeldIndex gathered bytes.now starts.now firsts.now links.now }
    requires held_marks { HeldMarks gathered marks.old }
    ensures line_is { LineIs kind (state_of kind gathered words.old bytes.now) (form_of line.now) words.new bytes.now starts.now firsts.now links.now result }
    ensures marks_are { MarksAre marks.new result }
{
    if scan::nothing_at(line, 0) {
        return pass_blank(line, gathered);
    }
    add_rule(
        line, kind, gathered, words, bytes, starts, firsts, links, marks,
    )
}
