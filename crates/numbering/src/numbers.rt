// The names of a rule's lists to atom numbers, in one walk over its line.
ghost use Rattle.std.specs.Prelude.{◌≡◌, ◌+◌, ◌*◌, ◌^◌, ◌≤◌, ◌<◌, eqb, length, get_or, set};
ghost use Rattle.name_store.specs.IndexedNames.{names_of};
ghost use Rattle.stores.specs.Checking.{Below};
ghost use Rattle.numbering.specs.Numbers.{NumbersAre, ListsAre, RuleIs};

use crate::hashed_items::{HashedItem, hashed_item_at};
use lines::forms::closes_line;
use lines::scan;
use name_store::indexed::NameIndex;
use output::words::push;

// A list up to its closing bracket: the places behind it and behind its numbers, and whether a name stands twice in it.
#[derive(Clone, Copy)]
pub struct Numbers {
    pub place: usize,
    pub end: usize,
    pub twice: bool,
}

// The same of a rule's three lists, with their counts.
#[derive(Clone, Copy)]
pub struct RuleCounts {
    pub place: usize,
    pub heads: usize,
    pub bodies: usize,
    pub nots: usize,
    pub end: usize,
    pub twice: bool,
}

// Marks an atom; whether it had the mark before.
pub fn mark(marks: &mut [u16], atom: usize, stamp: u16) -> bool
    requires { atom < length marks.old }
    ensures { (result ≡ eqb (get_or marks.old atom 0) stamp) × (marks.new ≡ set marks.old atom stamp) }
{
    std::mem::replace(&mut marks[atom], stamp) == stamp
}

// Writes the numbers of the names from `from` on, unless a name is not declared or the list is not closed.
pub fn numbers_at(
    line: &[u8],
    from: usize,
    names: &NameIndex,
    marks: &mut [u16],
    stamp: u16,
    out: &mut [u16],
    at: usize,
) -> Option<Numbers>
    requires from_in_bounds { (from ≤ length line.now) × (length names.now.starts.now ≤ 65535) × (length names.now.starts.now ≤ length marks.old) × (at + length line.now < 2 ^ 63) }
    requires below { Below stamp marks.old }
    ensures { NumbersAre (names_of names.now) line.now from stamp out.old at marks.new out.new result }
{
    let mut i = from;
    let mut end = at;
    let mut twice = false;
    while let Some(HashedItem { gap, size, hash }) = hashed_item_at(line, i) {
        let start = i + gap;
        let to = start + size;
        let atom = names.find_hashed(&line[start..to], hash)?;
        twice |= mark(marks, atom, stamp);
        end = push(atom as u16, out, end);
        i = to;
    }
    let place = scan::closed_at(line, i)?;
    Some(Numbers { place, end, twice })
}

// The three lists from `from` on, each with a stamp of its own.
fn lists_at(
    line: &[u8],
    from: usize,
    names: &NameIndex,
    marks: &mut [u16],
    stamp: u16,
    out: &mut [u16],
    at: usize,
) -> Option<RuleCounts>
    requires from_in_bounds { (from ≤ length line.now) × (length names.now.starts.now ≤ 65535) × (length names.now.starts.now ≤ length marks.old) × (at + 3 * length line.now < 2 ^ 63) × (stamp + 2 < 65536) }
    requires below { Below stamp marks.old }
    ensures { ListsAre (names_of names.now) line.now from stamp out.old at marks.new out.new result }
{
    let head = scan::opened_at(line, from, b"head")?;
    let heads = numbers_at(line, head, names, marks, stamp, out, at)?;
    let body = scan::opened_at(line, heads.place, b"body")?;
    let bodies = numbers_at(line, body, names, marks, stamp + 1, out, heads.end)?;
    let not = scan::opened_at(line, bodies.place, b"not")?;
    let nots = numbers_at(line, not, names, marks, stamp + 2, out, bodies.end)?;
    Some(RuleCounts {
        place: nots.place,
        heads: heads.end - at,
        bodies: bodies.end - heads.end,
        nots: nots.end - bodies.end,
        end: nots.end,
        twice: heads.twice | bodies.twice | nots.twice,
    })
}

// A rule's line with all names declared: their numbers are written.
pub fn rule_numbers(
    line: &[u8],
    names: &NameIndex,
    marks: &mut [u16],
    stamp: u16,
    out: &mut [u16],
    at: usize,
) -> Option<RuleCounts>
    requires starts_len_bound { (length names.now.starts.now ≤ 65535) × (length names.now.starts.now ≤ length marks.old) × (at + 3 * length line.now < 2 ^ 63) × (stamp + 2 < 65536) }
    requires below { Below stamp marks.old }
    ensures { RuleIs (names_of names.now) line.now stamp out.old at marks.new out.new result }
{
    let from = scan::opened_at(line, 0, b"rule")?;
    let counts = lists_at(line, from, names, marks, stamp, out, at)?;
    if !closes_line(line, counts.place) {
        return None;
    }
    if scan::is_ended(line) {
        return Some(counts);
    }
    None
}
