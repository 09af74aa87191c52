// Class words and names, those of the made atoms between.
ghost use Rattle.std.specs.Prelude.{◌≤◌, ◌≡◌, length};
ghost use Rattle.kinds.specs.Limits.{atom_limit};
ghost use Rattle.conditions.specs.Numbers.{placed_words};
ghost use Rattle.name_store.specs.NameStore.{encode_names, decode_names};
ghost use Rattle.output.specs.Emitted.{Emitted, InRange};
ghost use Rattle.placing.specs.Parts.{AtFront, placed_names};

use kinds::limits::{ClassWord, Kind};
use made_names::writing::put_names;
use output::bytes;
use output::words::{emit, emit_copies};

pub fn put_classes(classes: &[u16], first: usize, made: usize, out: &mut [u16], at: usize) -> usize
    requires { (first ≤ length classes.now) × InRange at (placed_words first made classes.now) }
    ensures { Emitted out.old at (placed_words first made classes.now) out.new result }
{
    let begun = emit(&classes[..first], out, at);
    let filled = emit_copies(ClassWord::VARYING, made, out, begun);
    emit(&classes[first..], out, filled)
}

// Where the first `count` names end.
fn names_end(bytes: &[u8], count: usize) -> usize
    requires { AtFront count bytes.now }
    ensures { result ≡ length (encode_names (decode_names count bytes.now)) }
{
    let mut at: usize = 0;
    for _ in 0..count {
        at += 1 + bytes[at] as usize;
    }
    at
}

pub fn place_names(bytes: &[u8], first: usize, made: usize, out: &mut [u8]) -> usize
    requires { AtFront first bytes.now × (made ≤ atom_limit Kind.Preference) × InRange 0 (placed_names first made bytes.now) }
    ensures { Emitted out.old 0 (placed_names first made bytes.now) out.new result }
{
    let split = names_end(bytes, first);
    let begun = bytes::emit(&bytes[..split], out, 0);
    let named = put_names(made, out, begun);
    bytes::emit(&bytes[split..], out, named)
}
