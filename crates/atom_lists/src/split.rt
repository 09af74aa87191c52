// The atoms of a list in two parts, written in one pass. No branch is decided by the atoms.
ghost use Rattle.std.specs.Prelude.{cond, [], ◌∷◌, ◌≡◌, ◌+◌, ◌^◌, ◌<◌, ◌≤◌, length};
ghost use Rattle.std.proofs.lemmas.List.Edits.{sets};
ghost use Rattle.kinds.specs.Limits.{occurrence_limit};
ghost use Rattle.kinds.specs.declared.limits.Kind.TheVariants.{Plain};
ghost use Rattle.pairing.specs.Loops.{below};
ghost use Rattle.atom_lists.specs.Split.{count_below, split_into, SplitFits};

use output::words::push;

// The atoms below `end` are raised by `low`, the others by `high`.
#[derive(Clone, Copy)]
pub struct Split {
    pub end: u16,
    pub low: usize,
    pub high: usize,
}

// How many atoms of a list are below `end`.
pub fn count_below(end: u16, atoms: &[u16]) -> u16
    requires { length atoms.now ≤ occurrence_limit Plain }
    ensures { result ≡ count_below end atoms.now }
{
    let mut count: u16 = 0;
    for atom in atoms {
        if *atom < end {
            count += 1;
        }
    }
    count
}

fn chosen(first: bool, x: usize, y: usize) -> usize
    ensures { result ≡ cond first x y }
{
    if first {
        return x;
    }
    y
}

// An atom below the end at `at`, any other at `behind`; says which.
fn put_atom(atom: u16, split: Split, out: &mut [u16], at: usize, behind: usize) -> bool
    requires { (atom < 256) × (split.low ≤ 1100) × (split.high ≤ 1100) × (cond (below split.end atom) at behind + 1 < 2 ^ 63) }
    ensures value { result ≡ below split.end atom }
    ensures out_after { out.new ≡ sets out.old (cond (below split.end atom) at behind) ((cond (below split.end atom) split.low split.high + atom) ∷ []) }
{
    let is_below = atom < split.end;
    let place = chosen(is_below, at, behind);
    let word = chosen(is_below, split.low, split.high) + atom as usize;
    push(word as u16, out, place);
    is_below
}

// The atoms below the end from `at` on, the others from `behind` on.
pub fn emit_split(atoms: &[u16], split: Split, out: &mut [u16], at: usize, behind: usize)
    requires { SplitFits split atoms.now at behind }
    ensures { out.new ≡ split_into split out.old atoms.now at behind }
{
    let mut low = at;
    let mut high = behind;
    for atom in atoms {
        let is_below = put_atom(*atom, split, out, low, high);
        low = chosen(is_below, low + 1, low);
        high = chosen(is_below, high, high + 1);
    }
}
