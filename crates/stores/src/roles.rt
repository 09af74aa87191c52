// The role of an atom by its class word: 1 to 16 the class, 17 varying, 18 fixed.
ghost use Rattle.std.specs.Prelude.{◌≡◌};
ghost use Rattle.stores.specs.Program.{role_of};

use kinds::limits::ClassWord;

#[derive(Clone, Copy)]
pub enum Role {
    Minimised(usize),
    Varying,
    Fixed,
    Unknown,
}

pub fn role_of(word: u16) -> Role
    ensures { result ≡ role_of word }
{
    match word {
        1..=16 => Role::Minimised(word as usize),
        ClassWord::VARYING => Role::Varying,
        ClassWord::FIXED => Role::Fixed,
        _ => Role::Unknown,
    }
}
