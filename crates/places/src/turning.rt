// From a set to its place and back: both turn the bits of the atoms round.
ghost use Rattle.std.specs.Prelude.{◌≡◌, ◌≤◌};
ghost use Rattle.kinds.specs.Limits.{walk_atoms};
ghost use Rattle.places.specs.Places.{place};

// The place of a set of so many atoms, or the set at a place.
pub fn turned(number: u64, atoms: usize) -> u64
    requires { atoms ≤ walk_atoms }
    ensures { result ≡ place atoms number }
{
    // A shift by all 64 bits is none.
    if atoms == 0 {
        return 0;
    }
    number.reverse_bits() >> (64 - atoms)
}
