// The names of made atoms in a name store.
ghost use Rattle.std.specs.Prelude.{◌≤◌, map};
ghost use Rattle.kinds.specs.Limits.{atom_limit};
ghost use Rattle.rules.specs.Lists.{from};
ghost use Rattle.names.specs.Names.{made_name};
ghost use Rattle.name_store.specs.NameStore.{name_bytes, encode_names};
ghost use Rattle.output.specs.Emitted.{Emitted, InRange};

use kinds::limits::Kind;
use output::bytes::{emit, push};
use printing::printing::emit_decimal;

pub fn emit_made(number: usize, out: &mut [u8], at: usize) -> usize
    requires { InRange at (made_name number) }
    ensures { Emitted out.old at (made_name number) out.new result }
{
    let start = emit(b"T.", out, at);
    emit_decimal(number as u64, out, start)
}

// A name behind its length, which is known once the name is written.
fn put_name(number: usize, out: &mut [u8], at: usize) -> usize
    requires { InRange at (name_bytes (made_name number)) }
    ensures { Emitted out.old at (name_bytes (made_name number)) out.new result }
{
    let end = emit_made(number, out, at + 1);
    push((end - at - 1) as u8, out, at);
    end
}

pub fn put_names(count: usize, out: &mut [u8], at: usize) -> usize
    requires { (count ≤ atom_limit Kind.Preference) × InRange at (encode_names (map made_name (from 1 count))) }
    ensures { Emitted out.old at (encode_names (map made_name (from 1 count))) out.new result }
{
    let mut next = at;
    for number in 1..=count {
        next = put_name(number, out, next);
    }
    next
}
