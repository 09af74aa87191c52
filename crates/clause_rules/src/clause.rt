// The literals of a clause, and its end.
ghost use Rattle.std.specs.Prelude.{◌≡◌, ◌+◌, ◌≤◌, ◌<◌, length};
ghost use Rattle.kinds.specs.Limits.{atom_limit, rule_limit};
ghost use Rattle.kinds.specs.Sizes.{store_words};
ghost use Rattle.clauses.specs.Literals.{positive, negative, signed};
ghost use Rattle.clause_rules.specs.HeldClauses.{held, HeldClauses, Marked, Started, TakenIs, EndedAs};

use gathering::rule_line::put_counts;
use kinds::limits::{Kind, Preference};
use output::words::{emit, emit_copies};

// What the lines so far have given: counts, beside the scratch that it is gathered in.
#[derive(Clone, Copy)]
pub struct ClauseCounts {
    // The header's numbers.
    pub atoms: usize,
    pub clauses: usize,
    // The rules of ended clauses, and how far they fill the scratch words.
    pub rules: usize,
    pub words: usize,
    // Of a clause that has begun: its head atoms, which stand three words further, and its body atoms, which stand beside.
    pub heads: usize,
    pub bodies: usize,
    // Of all clauses.
    pub occurrences: usize,
}

// The class words of the header's atoms, behind the four words of a store's header.
pub fn start(atoms: usize, clauses: usize, words: &mut [u16]) -> ClauseCounts
    requires { (atoms ≤ atom_limit Kind.Preference) × (clauses ≤ rule_limit Kind.Preference) × (length words.old ≡ store_words) }
    ensures { Started atoms clauses words.new result }
{
    let end = emit_copies(1, atoms, words, 4);
    ClauseCounts {
        atoms,
        clauses,
        rules: 0,
        words: end,
        heads: 0,
        bodies: 0,
        occurrences: 0,
    }
}

// Behind the head atoms, unless its mark says that it is there.
fn take_positive(
    counts: ClauseCounts,
    atom: usize,
    stamp: u16,
    words: &mut [u16],
    bodies: &[u16],
    marks: &mut [u16],
) -> Option<ClauseCounts>
    requires held_clauses { HeldClauses (held counts words.old bodies.now) counts words.old bodies.now }
    requires marked { Marked (held counts words.old bodies.now) marks.old }
    requires atom_lt_atoms { (atom < counts.atoms) × (stamp ≡ counts.rules + 1) }
    ensures { TakenIs (held counts words.old bodies.now) counts (positive atom) words.new bodies.now marks.new result }
{
    if marks[atom] == stamp {
        return Some(counts);
    }
    if counts.occurrences == Preference::OCCURRENCES {
        return None;
    }
    marks[atom] = stamp;
    let place = counts.words + 3 + counts.heads;
    words[place] = atom as u16;
    Some(ClauseCounts {
        heads: counts.heads + 1,
        occurrences: counts.occurrences + 1,
        ..counts
    })
}

// Behind the body atoms; its mark stands behind those of the head atoms.
fn take_negative(
    counts: ClauseCounts,
    atom: usize,
    stamp: u16,
    words: &[u16],
    bodies: &mut [u16],
    marks: &mut [u16],
) -> Option<ClauseCounts>
    requires held_clauses { HeldClauses (held counts words.now bodies.old) counts words.now bodies.old }
    requires marked { Marked (held counts words.now bodies.old) marks.old }
    requires atom_lt_atoms { (atom < counts.atoms) × (stamp ≡ counts.rules + 1) }
    ensures { TakenIs (held counts words.now bodies.old) counts (negative atom) words.now bodies.new marks.new result }
{
    let mark = Preference::ATOMS + atom;
    if marks[mark] == stamp {
        return Some(counts);
    }
    if counts.occurrences == Preference::OCCURRENCES {
        return None;
    }
    marks[mark] = stamp;
    let place = counts.bodies;
    bodies[place] = atom as u16;
    Some(ClauseCounts {
        bodies: counts.bodies + 1,
        occurrences: counts.occurrences + 1,
        ..counts
    })
}

// A literal more; no counts where there is one occurrence too many.
pub fn take_literal(
    counts: ClauseCounts,
    positive: bool,
    atom: usize,
    words: &mut [u16],
    bodies: &mut [u16],
    marks: &mut [u16],
) -> Option<ClauseCounts>
    requires held_clauses { HeldClauses (held counts words.old bodies.old) counts words.old bodies.old }
    requires marked { Marked (held counts words.old bodies.old) marks.old }
    requires atom_lt_atoms { atom < counts.atoms }
    ensures { TakenIs (held counts words.old bodies.old) counts (signed positive atom) words.new bodies.new marks.new result }
{
    let stamp = (counts.rules + 1) as u16;
    if positive {
        return take_positive(counts, atom, stamp, words, bodies, marks);
    }
    take_negative(counts, atom, stamp, words, bodies, marks)
}

pub fn end_clause(counts: ClauseCounts, words: &mut [u16], bodies: &[u16]) -> ClauseCounts
    requires held_clauses { HeldClauses (held counts words.old bodies.now) counts words.old bodies.now }
    requires rules_lt_clauses { counts.rules < counts.clauses }
    ensures { EndedAs (held counts words.old bodies.now) counts words.new bodies.now result }
{
    let at = counts.words;
    let heads = counts.heads;
    let count = counts.bodies;
    let behind = put_counts(heads, count, 0, words, at);
    let end = emit(&bodies[..count], words, behind + heads);
    ClauseCounts {
        rules: counts.rules + 1,
        words: end,
        heads: 0,
        bodies: 0,
        ..counts
    }
}
