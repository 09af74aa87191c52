// Where brackets and words of a condition stand.
ghost use Rattle.std.specs.Prelude.{◌≤◌, length};
ghost use Rattle.condition_parts.specs.Places.{OpeningIs, WordIs};

use lines::scan;
use lines::scan::{Bracket, Item};
use name_store::index;

// The place behind the opening bracket at `at`.
pub fn opening_at(s: &[u8], at: usize) -> Option<usize>
    requires { at ≤ length s.now }
    ensures { OpeningIs s.now at result }
{
    match scan::bracket_at(s, at) {
        Bracket::Opening(place) => Some(place + 1),
        Bracket::Closing(_) | Bracket::Absent => None,
    }
}

// The place behind `word` at `at`.
pub fn word_at(s: &[u8], at: usize, word: &[u8]) -> Option<usize>
    requires { at ≤ length s.now }
    ensures { WordIs s.now at word.now result }
{
    let Item { gap, size } = scan::item_at(s, at)?;
    let start = at + gap;
    let to = start + size;
    index::same_bytes(&s[start..to], word).then_some(to)
}
