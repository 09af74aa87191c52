// Atoms by their names.
ghost use Rattle.std.specs.Prelude.{◌-◌, ◌≤◌, ◌<◌, length};
ghost use Rattle.rules.specs.Lists.{All, from};
ghost use Rattle.name_store.specs.NameIndex.{Placed};
ghost use Rattle.output.specs.Emitted.{Emitted, InRange};
ghost use Rattle.text.specs.Items.{stored_names, StoredNames, atom_item, atom_items, atom_line};
ghost use Rattle.text.specs.PlacedNames.{names_in};

use crate::placed::PlacedNames;
use name_store::index::name_at;
use output::bytes::{emit, emit_name, push};

// Fills the table of the places of names.
pub fn place_names(names: &[u8], starts: &mut [u16])
    requires { StoredNames names.now starts.old }
    ensures { Placed (stored_names names.now starts.old) names.now starts.new }
{
    let mut at: usize = 0;
    for start in starts.iter_mut() {
        *start = at as u16;
        at += 1 + names[at] as usize;
    }
}

// One atom.
fn emit_atom(atom: usize, names: &PlacedNames, out: &mut [u8], at: usize) -> usize
    requires { (atom < length names.now.starts.now) × InRange at (atom_item (names_in names.now) atom) }
    ensures { Emitted out.old at (atom_item (names_in names.now) atom) out.new result }
{
    let next = push(b' ', out, at);
    emit_name(name_at(names.bytes, names.starts, atom), out, next)
}

// The atoms of a list.
pub fn emit_atoms(atoms: &[u16], names: &PlacedNames, out: &mut [u8], at: usize) -> usize
    requires { All (λ a. a < length names.now.starts.now) atoms.now × InRange at (atom_items (names_in names.now) atoms.now) }
    ensures { Emitted out.old at (atom_items (names_in names.now) atoms.now) out.new result }
{
    let mut next = at;
    for atom in atoms {
        next = emit_atom(*atom as usize, names, out, next);
    }
    next
}

// The atoms from `first` up to `end`.
fn emit_run(first: usize, end: usize, names: &PlacedNames, out: &mut [u8], at: usize) -> usize
    requires { (end ≤ length names.now.starts.now) × InRange at (atom_items (names_in names.now) (from first (end - first))) }
    ensures { Emitted out.old at (atom_items (names_in names.now) (from first (end - first))) out.new result }
{
    let mut next = at;
    for i in first..end {
        next = emit_atom(i, names, out, next);
    }
    next
}

// A line of the atoms from `first` up to `end`, after its opening.
pub fn emit_line(
    opening: &[u8],
    first: usize,
    end: usize,
    names: &PlacedNames,
    out: &mut [u8],
    at: usize,
) -> usize
    requires { (end ≤ length names.now.starts.now) × InRange at (atom_line (names_in names.now) opening.now (from first (end - first))) }
    ensures { Emitted out.old at (atom_line (names_in names.now) opening.now (from first (end - first))) out.new result }
{
    let opened = emit(opening, out, at);
    let listed = emit_run(first, end, names, out, opened);
    emit(b")\n", out, listed)
}
