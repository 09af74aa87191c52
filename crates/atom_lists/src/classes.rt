// The atoms by the roles that their class words give them.
ghost use Rattle.std.specs.Prelude.{◌≡◌, ◌<◌, ◌≤◌, length};
ghost use Rattle.atom_lists.specs.Roles.{class_of, unfixed_count, minimised_count};

use kinds::limits::{ClassWord, Preference};
use stores::roles::{Role, role_of};

// An atom's class; 0 for an atom that is not minimised.
pub fn class_of(classes: &[u16], atom: u16) -> u16
    requires { atom < length classes.now }
    ensures { result ≡ class_of classes.now atom }
{
    if let Role::Minimised(class) = role_of(classes[atom as usize]) {
        class as u16
    } else {
        0
    }
}

pub fn count_minimised(classes: &[u16]) -> u16
    requires { length classes.now ≤ 256 }
    ensures { result ≡ minimised_count classes.now }
{
    let minimised = classes
        .iter()
        .filter(|word| usize::from(**word) <= Preference::CLASSES);
    minimised.count() as u16
}

pub fn count_unfixed(classes: &[u16]) -> u16
    requires { length classes.now ≤ 256 }
    ensures { result ≡ unfixed_count classes.now }
{
    let unfixed = classes.iter().filter(|word| **word != ClassWord::FIXED);
    unfixed.count() as u16
}
