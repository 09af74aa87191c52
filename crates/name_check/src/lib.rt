#![tactic(auto)]
// The check of a name store (document 01, refusal 14).
ghost use Rattle.std.specs.Prelude.{◌≡◌, true, ◌≤◌, length, replicate};
ghost use Rattle.kinds.specs.Limits.{atom_limit};
ghost use Rattle.names.specs.Names.{allowed};
ghost use Rattle.name_store.specs.NameStore.{decode_names, are_names};
ghost use Rattle.name_store.specs.NameIndex.{buckets, Indexed};

use kinds::limits::{Kind, Plain};
use name_store::index;
use names::forms;

pub fn is_allowed(kind: Kind, name: &[u8]) -> bool
    ensures { result ≡ allowed kind name.now }
{
    forms::takes_class(kind, forms::name_class(name))
}

// Whether the bytes are a name store that fits a program of that kind with so many atoms; if so, its index is filled.
pub fn index_names(
    bytes: &[u8],
    kind: Kind,
    atoms: usize,
    starts: &mut [u16],
    firsts: &mut [u16],
    links: &mut [u16],
) -> bool
    requires { (atoms ≤ atom_limit Kind.Plain) × (atoms ≤ length starts.old) × (firsts.old ≡ replicate buckets 0) × (atoms ≤ length links.old) }
    ensures value { result ≡ are_names kind atoms bytes.now }
    ensures indexed { result ≡ true → Indexed (decode_names atoms bytes.now) bytes.now starts.new firsts.new links.new }
{
    let mut at: usize = 0;
    for atom in 0..atoms {
        let Some(to) = index::name_end(bytes, at) else {
            return false;
        };
        let from = at + 1;
        let name = &bytes[from..to];
        if !is_allowed(kind, name) {
            return false;
        }
        if !index::enter_new(bytes, name, starts, firsts, links, atom, at) {
            return false;
        }
        at = to;
    }
    at == bytes.len()
}

// Whether the bytes are a name store that fits a program of that kind with so many atoms.
pub fn check_names(bytes: &[u8], kind: Kind, atoms: usize) -> bool
    requires { atoms ≤ atom_limit Kind.Plain }
    ensures { result ≡ are_names kind atoms bytes.now }
{
    let mut starts = [0u16; Plain::ATOMS];
    let mut firsts = [0u16; index::BUCKETS];
    let mut links = [0u16; Plain::ATOMS];
    index_names(bytes, kind, atoms, &mut starts, &mut firsts, &mut links)
}
