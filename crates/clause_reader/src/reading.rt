// The lines of a clause file, one after another, into the scratch.
ghost use Rattle.std.specs.Prelude.{◌≡◌, ◌≤◌, length};
ghost use Rattle.kinds.specs.Limits.{text_limit};
ghost use Rattle.lines.specs.Lines.{lines};
ghost use Rattle.clauses.specs.Items.{items};
ghost use Rattle.clauses.specs.Faults.{unheaded, header_line, step_line};
ghost use Rattle.clauses.specs.ClausesSaid.{read_lines};
ghost use Rattle.clause_reader.specs.Reading.{state_of, HeldReading, LineIs, Empty, numbered, at_end, GatherIs};

use crate::clause_line::{Reading, is_full, read_items};
use answers::ReadRefusal;
use clause_items::header::header_of;
use clause_items::numbers::skip;
use clause_rules::clause::{ClauseCounts, start};
use kinds::refusals::Refusal;
use lines::scan;

// The header's line: its class words come first.
fn read_header(
    line: &[u8],
    words: &mut [u16],
    bodies: &[u16],
    marks: &[u16],
) -> Result<Reading, Refusal>
    requires { Empty words.old bodies.now marks.now }
    ensures { LineIs (header_line (items line.now)) words.new bodies.now marks.now result }
{
    let header = header_of(line)?;
    Ok(Some(start(header.atoms, header.clauses, words)))
}

// One line against what the lines before have given.
fn read_line(
    line: &[u8],
    reading: Reading,
    words: &mut [u16],
    bodies: &mut [u16],
    marks: &mut [u16],
) -> Result<Reading, Refusal>
    requires { HeldReading reading words.old bodies.old marks.old }
    ensures { LineIs (step_line (state_of reading words.old bodies.old) line.now) words.new bodies.new marks.new result }
{
    if !scan::is_ended(line) {
        return Err(Refusal::BrokenClauses);
    }
    if line[0] == b'c' || skip(line, 0) == line.len() {
        return Ok(reading);
    }
    match reading {
        None => read_header(line, words, bodies, marks),
        Some(counts) => read_items(line, counts, words, bodies, marks),
    }
}

// A line's refusal, passed on with the line.
fn numbered(answer: Result<Reading, Refusal>, line: usize) -> Result<Reading, ReadRefusal>
    ensures { result ≡ numbered answer line }
{
    answer.map_err(|refusal| ReadRefusal { refusal, line })
}

// Behind the last line: all clauses of the header have come and are ended, or one is missing.
fn at_end(reading: Reading, line: usize) -> Result<ClauseCounts, ReadRefusal>
    ensures { result ≡ at_end reading line }
{
    match reading {
        Some(counts) if is_full(counts) => Ok(counts),
        _ => Err(ReadRefusal {
            refusal: Refusal::BrokenClauses,
            line,
        }),
    }
}

// What the lines of a text give: the counts beside the filled scratch, or the earliest faulty line with its refusal.
pub fn read_lines(
    text: &[u8],
    words: &mut [u16],
    bodies: &mut [u16],
    marks: &mut [u16],
) -> Result<ClauseCounts, ReadRefusal>
    requires text_len_bound { length text.now ≤ text_limit }
    requires empty { Empty words.old bodies.old marks.old }
    ensures { GatherIs (read_lines 1 unheaded (lines text.now)) words.new bodies.new result }
{
    let mut reading = None;
    let mut at: usize = 0;
    let mut number: usize = 1;
    while at < text.len() {
        let to = at + scan::line_at(text, at);
        let answer = read_line(&text[at..to], reading, words, bodies, marks);
        reading = numbered(answer, number)?;
        number += 1;
        at = to;
    }
    at_end(reading, number)
}
