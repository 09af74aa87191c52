// The form of a line and the places of its lists (document 01, "The two kinds of file"; document 02, W-205).
ghost use Rattle.std.specs.Prelude.{◌≡◌, ◌≤◌, length, drop};
ghost use Rattle.lines.specs.Tokens.{tokens};
ghost use Rattle.lines.specs.Forms.{opened_of, declared_form, rule_form, opened_form, named, form_of};
ghost use Rattle.lines.specs.Shapes.{WholeWord, is_closing_last, name_fit, NamesAre, ListIs, word_of, ShapeIs};

use crate::scan;
use crate::scan::Item;
use kinds::limits::Kind;
use names::forms::NameClass;

// What a name is to a kind of program: taken, refused by its length or as a generated one (refusal 3), or no name.
#[derive(Clone, Copy)]
pub enum NameFit {
    Taken,
    Refused,
    Wrong,
}

// Names up to a closing bracket: where it ends, their number, and whether one of them is refused.
#[derive(Clone, Copy)]
pub struct Names {
    pub end: usize,
    pub count: usize,
    pub refused: bool,
}

// The word of a line that declares atoms.
#[derive(Clone, Copy, PartialEq, Eq)]
pub enum Keyword {
    Atoms,
    Min,
    Vary,
    Fix,
}

// The form of a line, and of a rule whether one of its names is refused.
#[derive(Clone, Copy)]
pub enum Shape {
    Blank,
    Declares(DeclaredShape),
    Rule { refused: bool },
    // A condition, or no form.
    Other,
}

// Where the names start, how many there are, and whether one of them is refused.
#[derive(Clone, Copy)]
pub struct DeclaredShape {
    pub word: Keyword,
    pub from: usize,
    pub count: usize,
    pub refused: bool,
}

pub fn name_fit(name: &[u8], kind: Kind) -> NameFit
    ensures { result ≡ name_fit kind name.now }
{
    match names::forms::name_class(name) {
        NameClass::Common => NameFit::Taken,
        NameClass::Generated => match kind {
            Kind::Plain => NameFit::Taken,
            Kind::Preference => NameFit::Refused,
        },
        NameClass::TooLong => NameFit::Refused,
        NameClass::Wrong => NameFit::Wrong,
    }
}

// The names from `from` on, if they are a list.
fn names_at(s: &[u8], from: usize, kind: Kind) -> Option<Names>
    requires { from ≤ length s.now }
    ensures { NamesAre kind s.now from result }
{
    let mut end = from;
    let mut count: usize = 0;
    let mut refused = false;
    while let Some(Item { gap, size }) = scan::item_at(s, end) {
        let start = end + gap;
        let to = start + size;
        match name_fit(&s[start..to], kind) {
            NameFit::Taken => {}
            NameFit::Refused => refused = true,
            NameFit::Wrong => return None,
        }
        count += 1;
        end = to;
    }
    let end = scan::closed_at(s, end)?;
    Some(Names {
        end,
        count,
        refused,
    })
}

// A bracket with its word, and the names after it.
fn list_at(s: &[u8], at: usize, word: &[u8], kind: Kind) -> Option<Names>
    requires { (at ≤ length s.now) × WholeWord word.now }
    ensures { ListIs kind word.now s.now at result }
{
    let from = scan::opened_at(s, at, word)?;
    names_at(s, from, kind)
}

// A line that declares atoms, behind its word.
fn declared_shape(line: &[u8], from: usize, kind: Kind, word: Keyword) -> Shape
    requires { from ≤ length line.now }
    ensures { ShapeIs kind line.now (named (declared_form (word_of word) (tokens (drop from line.now)))) result }
{
    let Some(names) = names_at(line, from, kind) else {
        return Shape::Other;
    };
    if scan::nothing_at(line, names.end) {
        return Shape::Declares(DeclaredShape {
            word,
            from,
            count: names.count,
            refused: names.refused,
        });
    }
    Shape::Other
}

// A closing bracket, and nothing behind it.
pub fn closes_line(line: &[u8], at: usize) -> bool
    requires { at ≤ length line.now }
    ensures { result ≡ is_closing_last (tokens (drop at line.now)) }
{
    scan::closed_at(line, at).is_some_and(|end| scan::nothing_at(line, end))
}

// A rule, behind its word.
fn rule_shape(line: &[u8], from: usize, kind: Kind) -> Shape
    requires { from ≤ length line.now }
    ensures { ShapeIs kind line.now (named (rule_form (tokens (drop from line.now)))) result }
{
    let Some(head) = list_at(line, from, b"head", kind) else {
        return Shape::Other;
    };
    let Some(body) = list_at(line, head.end, b"body", kind) else {
        return Shape::Other;
    };
    let Some(not) = list_at(line, body.end, b"not", kind) else {
        return Shape::Other;
    };
    if closes_line(line, not.end) {
        let refused = head.refused | body.refused | not.refused;
        return Shape::Rule { refused };
    }
    Shape::Other
}

// A line that is ended and not blank.
fn opened_shape(line: &[u8], kind: Kind) -> Shape
    ensures { ShapeIs kind line.now (named (opened_form (opened_of (tokens line.now)))) result }
{
    if let Some(from) = scan::opened_at(line, 0, b"rule") {
        return rule_shape(line, from, kind);
    }
    if let Some(from) = scan::opened_at(line, 0, b"min") {
        return declared_shape(line, from, kind, Keyword::Min);
    }
    if let Some(from) = scan::opened_at(line, 0, b"vary") {
        return declared_shape(line, from, kind, Keyword::Vary);
    }
    if let Some(from) = scan::opened_at(line, 0, b"fix") {
        return declared_shape(line, from, kind, Keyword::Fix);
    }
    if let Some(from) = scan::opened_at(line, 0, b"atoms") {
        return declared_shape(line, from, kind, Keyword::Atoms);
    }
    Shape::Other
}

pub fn shape_of(line: &[u8], kind: Kind) -> Shape
    ensures { ShapeIs kind line.now (form_of line.now) result }
{
    let ended = scan::is_ended(line);
    if !ended {
        return Shape::Other;
    }
    if scan::nothing_at(line, 0) {
        return Shape::Blank;
    }
    opened_shape(line, kind)
}
