// `(when COND (then a))`: where COND and a stand.
ghost use Rattle.std.specs.Prelude.{true, ◌≡◌, ◌≤◌, length};
ghost use Rattle.kinds.specs.Words.{when_word};
ghost use Rattle.lines.specs.Tokens.{tokens};
ghost use Rattle.lines.specs.Forms.{opened_of, form_of};
ghost use Rattle.lines.specs.Shapes.{opens_with};
ghost use Rattle.condition_form.specs.ConditionForms.{StandingIs, WalkIs, ThenIs, ConditionIs};

use kinds::limits::Kind;
use lines::forms::NameFit;
use lines::scan::{Bracket, Item};
use lines::{forms, scan};

// What stands at a place: a bracket there, or a name up to a place.
#[derive(Clone, Copy)]
enum Standing {
    Opening(usize),
    Closing(usize),
    Taken(usize),
    Refused(usize),
}

// One form up to the line's end: its last opening bracket is at `last`; whether one of its names is refused.
#[derive(Clone, Copy)]
struct Walk {
    last: usize,
    refused: bool,
}

// The bytes of a in `(then a))`.
#[derive(Clone, Copy)]
struct Then {
    start: usize,
    end: usize,
}

// COND's bytes are from..to, those of a start..end; whether one of the names is refused.
#[derive(Clone, Copy)]
pub struct ConditionPlaces {
    pub from: usize,
    pub to: usize,
    pub start: usize,
    pub end: usize,
    pub refused: bool,
}

// A bracket or a name, if one of them stands there.
fn standing_at(line: &[u8], at: usize, kind: Kind) -> Option<Standing>
    requires { at ≤ length line.now }
    ensures { StandingIs kind line.now at result }
{
    let Some(Item { gap, size }) = scan::item_at(line, at) else {
        return match scan::bracket_at(line, at) {
            Bracket::Opening(place) => Some(Standing::Opening(place)),
            Bracket::Closing(place) => Some(Standing::Closing(place)),
            Bracket::Absent => None,
        };
    };
    let start = at + gap;
    let to = start + size;
    match forms::name_fit(&line[start..to], kind) {
        NameFit::Taken => Some(Standing::Taken(to)),
        NameFit::Refused => Some(Standing::Refused(to)),
        NameFit::Wrong => None,
    }
}

// The form whose own opening bracket stands before `from`. `(then a))` has one opening bracket: only at the last one it can stand.
fn form_from(line: &[u8], from: usize, kind: Kind) -> Option<Walk>
    requires { from ≤ length line.now }
    ensures { WalkIs kind line.now from result }
{
    let mut at = from;
    let mut last = from;
    let mut depth: usize = 0;
    let mut refused = false;
    loop {
        match standing_at(line, at, kind)? {
            Standing::Opening(place) => {
                last = place;
                depth += 1;
                at = place + 1;
            }
            Standing::Closing(place) => {
                at = place + 1;
                if depth == 0 {
                    return scan::nothing_at(line, at).then_some(Walk { last, refused });
                }
                depth -= 1;
            }
            Standing::Taken(to) => {
                at = to;
            }
            Standing::Refused(to) => {
                refused = true;
                at = to;
            }
        }
    }
}

fn then_at(line: &[u8], at: usize) -> Option<Then>
    requires { at ≤ length line.now }
    ensures { ThenIs line.now at result }
{
    let behind = scan::opened_at(line, at, b"then")?;
    let Item { gap, size } = scan::item_at(line, behind)?;
    let start = behind + gap;
    let end = start + size;
    let closed = scan::closed_at(line, end)?;
    forms::closes_line(line, closed).then_some(Then { start, end })
}

pub fn condition_at(line: &[u8], kind: Kind) -> Option<ConditionPlaces>
    requires { opens_with when_word (opened_of (tokens line.now)) ≡ true }
    ensures { ConditionIs kind line.now (form_of line.now) result }
{
    if !scan::is_ended(line) {
        return None;
    }
    let from = scan::opened_at(line, 0, b"when")?;
    let walk = form_from(line, from, kind)?;
    let then = then_at(line, walk.last)?;
    Some(ConditionPlaces {
        from,
        to: walk.last,
        start: then.start,
        end: then.end,
        refused: walk.refused,
    })
}
