// Where the index has an atom's rules.
ghost use Rattle.std.specs.Prelude.{◌≡◌};
ghost use Rattle.rule_index.specs.Places.{list_at};
ghost use Rattle.flipping.specs.Places.{Counts};

// Where the atom's count stands, behind the counts and rules of the atoms before it.
pub fn own_start(index: &[u16], atom: usize) -> usize
    requires { Counts index.now atom }
    ensures { result ≡ list_at index.now atom }
{
    let mut at: usize = 0;
    for i in 0..atom {
        at = at + 1 + index[at] as usize;
    }
    at
}
