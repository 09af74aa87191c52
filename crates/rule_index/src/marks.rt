// A mark for each atom: the stamp of the last rule that had it.
ghost use Rattle.std.specs.Prelude.{◌≡◌, not, ◌<◌, eqb, length, get_or, set};

// Marks the atom, and tells whether the rule had it not yet.
pub fn first_here(marks: &mut [u16], atom: usize, stamp: u16) -> bool
    requires { atom < length marks.old }
    ensures value { result ≡ not (eqb (get_or marks.old atom 0) stamp) }
    ensures marks_after { marks.new ≡ set marks.old atom stamp }
{
    let seen = marks[atom] == stamp;
    marks[atom] = stamp;
    !seen
}
