// Whether names of made atoms are declared.
ghost use Rattle.std.specs.Prelude.{suc, ◌+◌, ◌^◌, ◌≤◌, ◌<◌, min, ◌≡◌, T};
ghost use Rattle.kinds.specs.Limits.{atom_limit};
ghost use Rattle.rules.specs.Lists.{All, some, from};
ghost use Rattle.names.specs.Names.{made_name, allowed};
ghost use Rattle.name_store.specs.NameStore.{among};
ghost use Rattle.name_store.specs.IndexedNames.{names_of};

use crate::writing::emit_made;
use kinds::limits::{Kind, Preference};
use name_store::indexed::NameIndex;

// `T.` and the digits of the largest number.
const LONGEST: usize = 22;

fn is_declared(number: usize, names: &NameIndex) -> bool
    ensures { result ≡ among (names_of names.now) (made_name number) }
{
    let mut name = [0u8; LONGEST];
    let size = emit_made(number, &mut name, 0);
    names.find(&name[..size]).is_some()
}

// The last number that a name of so many made atoms can have: no greater number is in any name.
fn last_named(made: usize, count: usize) -> usize
    requires { (made ≤ atom_limit Kind.Preference) × (count < 2 ^ 32) }
    ensures { result ≡ min (made + count) (atom_limit Kind.Preference) }
{
    (made + count).min(Preference::ATOMS)
}

// Whether one of the next `count` names is declared, where `made` atoms have theirs.
pub fn any_declared(made: usize, count: usize, names: &NameIndex) -> bool
    requires all { All (λ x. T (allowed Kind.Preference x)) (names_of names.now) }
    requires made_bound { (made ≤ atom_limit Kind.Preference) × (count < 2 ^ 32) }
    ensures { result ≡ some (λ t. among (names_of names.now) (made_name t)) (from (suc made) count) }
{
    let last = last_named(made, count);
    for number in made + 1..=last {
        if is_declared(number, names) {
            return true;
        }
    }
    false
}
