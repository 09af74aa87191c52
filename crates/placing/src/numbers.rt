// The atoms' numbers once the made ones stand behind the unfixed ones and before the fixed ones.
ghost use Rattle.std.specs.Prelude.{ℕ, ◌+◌, ◌≤◌, ◌<◌, ◌≡◌, length, get_or};
ghost use Rattle.kinds.specs.Limits.{atom_limit};
ghost use Rattle.conditions.specs.Numbers.{unfixed, placing};

use kinds::limits::{ClassWord, Kind};

// How many class words are of atoms that are not fixed.
pub fn count_unfixed(words: &[u16]) -> usize
    ensures { result ≡ unfixed words.now }
{
    words
        .iter()
        .filter(|word| **word != ClassWord::FIXED)
        .count()
}

fn place(first: usize, declared: usize, made: usize, atom: usize) -> usize
    requires { (first ≤ declared) × (declared + made ≤ atom_limit Kind.Preference) × (atom < declared + made) }
    ensures { (result ≡ placing first declared made atom) × (result < declared + made) }
{
    if atom < first {
        return atom;
    }
    if atom < declared {
        return atom + made;
    }
    first + (atom - declared)
}

// `first` unfixed atoms of those declared stand before the made ones.
pub fn number_places(first: usize, declared: usize, made: usize, numbers: &mut [u16])
    requires { (first ≤ declared) × (declared + made ≤ atom_limit Kind.Preference) × (declared + made ≤ length numbers.old) }
    ensures { (a : ℕ) → a < declared + made → get_or numbers.new a 0 ≡ placing first declared made a }
{
    let all = declared + made;
    for (atom, number) in numbers[..all].iter_mut().enumerate() {
        *number = place(first, declared, made, atom) as u16;
    }
}
