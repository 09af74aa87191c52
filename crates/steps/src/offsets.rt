// The numbers of N., S. and D. of atom 0, of E.0 and of U.
ghost use Rattle.std.specs.Prelude.{◌≡◌, ◌≤◌};
ghost use Rattle.steps.specs.Offsets.{offsets_of};

#[derive(Clone, Copy)]
pub struct Offsets {
    pub n: u16,
    pub s: u16,
    pub d: u16,
    pub e: u16,
    pub u: u16,
}

// The atoms in their order: originals, all N., S. of each not fixed, D. of each minimised, E.0 to E.k, U.
pub fn numbered(atoms: u16, classes: u16, minimised: u16, unfixed: u16) -> Offsets
    requires { (atoms ≤ 256) × (classes ≤ 16) × (minimised ≤ 256) × (unfixed ≤ 256) }
    ensures { result ≡ offsets_of atoms classes minimised unfixed }
{
    let s = 2 * atoms;
    let d = s + unfixed;
    let e = d + minimised;
    let u = e + (classes + 1);
    Offsets {
        n: atoms,
        s: s,
        d: d,
        e: e,
        u: u,
    }
}
