// The lines of a text, one after another, into the scratch stores.
ghost use Rattle.std.specs.Prelude.{◌≡◌, true, ◌≤◌, length};
ghost use Rattle.kinds.specs.Limits.{text_limit};
ghost use Rattle.lines.specs.Lines.{lines};
ghost use Rattle.lines.specs.Tokens.{tokens};
ghost use Rattle.lines.specs.Forms.{opened_of, form_of};
ghost use Rattle.lines.specs.Faults.{is_ruling};
ghost use Rattle.lines.specs.Said.{kind_opened, kind_of, start, read_lines};
ghost use Rattle.gathering.specs.Gathered.{state_of, Held, HeldIndex, HeldMarks, LineIs, MarksAre};
ghost use Rattle.reader.specs.Gathering.{start_counts, passed_on, at_end, GatherIs};

use answers::ReadRefusal;
use condition_line::condition_line::{opens_condition, read_condition};
use declaring::declared_line;
use gathering::gathered::Gathered;
use gathering::rule_line;
use kinds::limits::{Counts, Kind};
use kinds::refusals::Refusal;
use lines::scan;
use lines::stage::Stage;

// The kind that a line tells by its first word.
fn line_kind(line: &[u8]) -> Kind
    ensures { result ≡ kind_opened (opened_of (tokens line.now)) }
{
    match scan::opened_at(line, 0, b"atoms") {
        Some(_) => Kind::Plain,
        None => Kind::Preference,
    }
}

// The kind that the first line tells that is not blank.
pub fn kind_of(text: &[u8]) -> Kind
    ensures { result ≡ kind_of (lines text.now) }
{
    let mut at: usize = 0;
    while at < text.len() {
        let to = at + scan::line_at(text, at);
        let line = &text[at..to];
        let blank = scan::nothing_at(line, 0);
        if !blank {
            return line_kind(line);
        }
        at = to;
    }
    Kind::Preference
}

// The counts before the first line; four words are kept for the header.
pub fn start_counts() -> Gathered
    ensures { result ≡ start_counts }
{
    Gathered {
        stage: Stage::Declaring,
        classes: 0,
        counts: Counts::empty(),
        made: 0,
        words: 4,
        bytes: 0,
    }
}

// A line behind the declarations.
fn read_statement(
    line: &[u8],
    kind: Kind,
    gathered: Gathered,
    words: &mut [u16],
    bytes: &[u8],
    starts: &[u16],
    firsts: &[u16],
    links: &[u16],
    marks: &mut [u16],
) -> Result<Gathered, Refusal>
    requires line_len_bound { (length line.now ≤ text_limit) × (is_ruling gathered.stage ≡ true) }
    requires held { Held kind (state_of kind gathered words.old bytes.now) gathered words.old bytes.now }
    requires held_index { HeldIndex gathered bytes.now starts.now firsts.now links.now }
    requires held_marks { HeldMarks gathered marks.old }
    ensures line_is { LineIs kind (state_of kind gathered words.old bytes.now) (form_of line.now) words.new bytes.now starts.now firsts.now links.now result }
    ensures marks_are { MarksAre marks.new result }
{
    if opens_condition(line, kind) {
        return read_condition(line, gathered, words, bytes, starts, firsts, links);
    }
    rule_line::read_rule(
        line, kind, gathered, words, bytes, starts, firsts, links, marks,
    )
}

// One line against what the lines before have given.
fn read_line(
    line: &[u8],
    kind: Kind,
    gathered: Gathered,
    words: &mut [u16],
    bytes: &mut [u8],
    starts: &mut [u16],
    firsts: &mut [u16],
    links: &mut [u16],
    marks: &mut [u16],
) -> Result<Gathered, Refusal>
    requires line_len_bound { length line.now ≤ text_limit }
    requires held { Held kind (state_of kind gathered words.old bytes.old) gathered words.old bytes.old }
    requires held_index { HeldIndex gathered bytes.old starts.old firsts.old links.old }
    requires held_marks { HeldMarks gathered marks.old }
    ensures line_is { LineIs kind (state_of kind gathered words.old bytes.old) (form_of line.now) words.new bytes.new starts.new firsts.new links.new result }
    ensures marks_are { MarksAre marks.new result }
{
    if rule_line::is_ruling(gathered.stage) {
        return read_statement(
            line, kind, gathered, words, bytes, starts, firsts, links, marks,
        );
    }
    declared_line::read_declared(line, kind, gathered, words, bytes, starts, firsts, links)
}

// A line's refusal, passed on with the line.
fn passed_on(answer: Result<Gathered, Refusal>, line: usize) -> Result<Gathered, ReadRefusal>
    ensures { result ≡ passed_on answer line }
{
    answer.map_err(|refusal| ReadRefusal { refusal, line })
}

// Behind the last line: the rules have begun, or the next line is missing.
fn at_end(gathered: Gathered, number: usize) -> Result<Gathered, ReadRefusal>
    ensures { result ≡ at_end gathered number }
{
    if rule_line::is_ruling(gathered.stage) {
        return Ok(gathered);
    }
    Err(ReadRefusal {
        refusal: Refusal::BrokenForm,
        line: number,
    })
}

// What the lines of a text give: the counts beside the filled scratch stores, or the earliest faulty line with its refusal.
pub fn read_lines(
    text: &[u8],
    kind: Kind,
    words: &mut [u16],
    bytes: &mut [u8],
    starts: &mut [u16],
    firsts: &mut [u16],
    links: &mut [u16],
    marks: &mut [u16],
) -> Result<Gathered, ReadRefusal>
    requires text_len_bound { length text.now ≤ text_limit }
    requires held { Held kind (start text.now) start_counts words.old bytes.old }
    requires held_index { HeldIndex start_counts bytes.old starts.old firsts.old links.old }
    requires held_marks { HeldMarks start_counts marks.old }
    ensures { GatherIs kind (read_lines 1 (start text.now) (lines text.now)) words.new bytes.new result }
{
    let mut gathered = start_counts();
    let mut at: usize = 0;
    let mut number: usize = 1;
    while at < text.len() {
        let to = at + scan::line_at(text, at);
        let answer = read_line(
            &text[at..to],
            kind,
            gathered,
            words,
            bytes,
            starts,
            firsts,
            links,
            marks,
        );
        gathered = passed_on(answer, number)?;
        number += 1;
        at = to;
    }
    at_end(gathered, number)
}
