// Where lines, brackets and words stand in the bytes.
ghost use Rattle.std.specs.Prelude.{◌≡◌, ◌≤◌, eqb, length, take, drop};
ghost use Rattle.rules.specs.Lists.{some, is_empty};
ghost use Rattle.name_store.specs.NameStore.{same_bytes};
ghost use Rattle.kinds.specs.Words.{line_end_lem};
ghost use Rattle.lines.specs.Lines.{line_length, is_ended};
ghost use Rattle.lines.specs.Tokens.{is_ending, is_delimiter, run, tokens};
ghost use Rattle.lines.specs.Shapes.{begins, gap, item_of, WholeWord, ClosedIs, OpenedIs, BracketIs};

// A word of `size` bytes behind `gap` spaces.
#[derive(Clone, Copy)]
pub struct Item {
    pub gap: usize,
    pub size: usize,
}

// A bracket by its place, or anything else.
#[derive(Clone, Copy)]
pub enum Bracket {
    Opening(usize),
    Closing(usize),
    Absent,
}

// Behind it nothing counts.
fn is_end(b: u8) -> bool
    ensures { result ≡ is_ending b }
{
    b == b';' || b == b'\n'
}

pub fn is_delimiter(b: u8) -> bool
    ensures { result ≡ is_delimiter b }
{
    b == b' ' || (b == b'(' || (b == b')' || (b == b';' || b == b'\n')))
}

// Whether a line ends in these bytes. No byte ends the walk, so that many are compared at once.
fn has_line_end(bytes: &[u8]) -> bool
    ensures { result ≡ some (λ b. eqb b line_end_lem) bytes.now }
{
    bytes.contains(&b'\n')
}

fn line_by_bytes(s: &[u8], at: usize) -> usize
    requires { at ≤ length s.now }
    ensures { result ≡ line_length (drop at s.now) }
{
    let rest = &s[at..];
    rest.iter()
        .position(|b| *b == b'\n')
        .map_or(rest.len(), |i| i + 1)
}

// The length of the line at `at`, its end included.
pub fn line_at(s: &[u8], at: usize) -> usize
    requires { at ≤ length s.now }
    ensures { result ≡ line_length (drop at s.now) }
{
    let mut i = at;
    while 16 <= s.len() - i {
        let to = i + 16;
        if has_line_end(&s[i..to]) {
            return i - at + line_by_bytes(s, i);
        }
        i = to;
    }
    i - at + line_by_bytes(s, i)
}

// Whether byte 10 is the line's last.
pub fn is_ended(line: &[u8]) -> bool
    ensures { result ≡ is_ended line.now }
{
    line.last() == Some(&b'\n')
}

// How many bytes stand from `at` on before a delimiter.
pub fn run_at(s: &[u8], at: usize) -> usize
    requires { at ≤ length s.now }
    ensures { result ≡ run (drop at s.now) }
{
    for i in at..s.len() {
        if is_delimiter(s[i]) {
            return i - at;
        }
    }
    s.len() - at
}

// How many spaces stand from `at` on.
pub fn gap_at(s: &[u8], at: usize) -> usize
    requires { at ≤ length s.now }
    ensures { result ≡ gap (drop at s.now) }
{
    for i in at..s.len() {
        if s[i] != b' ' {
            return i - at;
        }
    }
    s.len() - at
}

// The item at `at`, unless anything else stands there.
pub fn item_at(s: &[u8], at: usize) -> Option<Item>
    requires { at ≤ length s.now }
    ensures { result ≡ item_of (drop at s.now) }
{
    let gap = gap_at(s, at);
    let start = at + gap;
    if s.len() <= start {
        return None;
    }
    if is_delimiter(s[start]) {
        return None;
    }
    Some(Item {
        gap,
        size: run_at(s, start),
    })
}

// Whether nothing that counts stands from `at` on.
pub fn nothing_at(s: &[u8], at: usize) -> bool
    requires { at ≤ length s.now }
    ensures { result ≡ is_empty (tokens (drop at s.now)) }
{
    let i = at + gap_at(s, at);
    s.get(i).is_none_or(|b| is_end(*b))
}

// The place behind the closing bracket at `at`.
pub fn closed_at(s: &[u8], at: usize) -> Option<usize>
    requires { at ≤ length s.now }
    ensures { ClosedIs s.now at result }
{
    let i = at + gap_at(s, at);
    match s.get(i) {
        Some(b')') => Some(i + 1),
        _ => None,
    }
}

// The bracket at `at`.
pub fn bracket_at(s: &[u8], at: usize) -> Bracket
    requires { at ≤ length s.now }
    ensures { BracketIs s.now at result }
{
    let i = at + gap_at(s, at);
    match s.get(i) {
        Some(b'(') => Bracket::Opening(i),
        Some(b')') => Bracket::Closing(i),
        _ => Bracket::Absent,
    }
}

// Whether `tag` stands at `at`.
pub fn begins_at(s: &[u8], at: usize, tag: &[u8]) -> bool
    requires { at ≤ length s.now }
    ensures { result ≡ begins tag.now (drop at s.now) }
{
    s[at..].starts_with(tag)
}

// Whether `word` stands at `at`, with no byte more.
fn word_at(s: &[u8], at: usize, word: &[u8]) -> bool
    requires { (at ≤ length s.now) × WholeWord word.now }
    ensures { result ≡ same_bytes (take (run (drop at s.now)) (drop at s.now)) word.now }
{
    if !begins_at(s, at, word) {
        return false;
    }
    let end = at + word.len();
    if s.len() <= end {
        return true;
    }
    is_delimiter(s[end])
}

// The place behind the opening bracket at `at` and its word.
pub fn opened_at(s: &[u8], at: usize, word: &[u8]) -> Option<usize>
    requires { (at ≤ length s.now) × WholeWord word.now }
    ensures { OpenedIs s.now at word.now result }
{
    let i = at + gap_at(s, at);
    if s.len() <= i {
        return None;
    }
    if s[i] != b'(' {
        return None;
    }
    let start = i + 1 + gap_at(s, i + 1);
    if word_at(s, start, word) {
        return Some(start + word.len());
    }
    None
}
