// The names of a clause file's atoms, `v1`, `v2`, and so on.
ghost use Rattle.std.specs.Prelude.{◌≤◌, ◌<◌};
ghost use Rattle.kinds.specs.Limits.{atom_limit};
ghost use Rattle.name_store.specs.NameStore.{name_bytes, encode_names};
ghost use Rattle.output.specs.Emitted.{Emitted, InRange};
ghost use Rattle.clauses.specs.Written.{clause_name, clause_names};

use kinds::limits::Kind;
use output::bytes::push;
use printing::printing::emit_decimal;

// An atom's name behind its length, which is known once the name is written.
fn put_name(atom: usize, bytes: &mut [u8], at: usize) -> usize
    requires { (atom < atom_limit Kind.Preference) × InRange at (name_bytes (clause_name atom)) }
    ensures { Emitted bytes.old at (name_bytes (clause_name atom)) bytes.new result }
{
    let start = push(b'v', bytes, at + 1);
    let end = emit_decimal((atom + 1) as u64, bytes, start);
    push((end - at - 1) as u8, bytes, at);
    end
}

pub fn put_names(atoms: usize, bytes: &mut [u8]) -> usize
    requires { atoms ≤ atom_limit Kind.Preference }
    ensures { Emitted bytes.old 0 (encode_names (clause_names atoms)) bytes.new result }
{
    let mut at: usize = 0;
    for atom in 0..atoms {
        at = put_name(atom, bytes, at);
    }
    at
}
