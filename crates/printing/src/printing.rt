// What the two programs print, line by line (document 01, "Sheets of known states").
ghost use Rattle.std.specs.Prelude.{◌≡◌, ◌≤◌, ◌<◌, length};
ghost use Rattle.kinds.specs.Words.{decimal};
ghost use Rattle.rules.specs.Sets.{has};
ghost use Rattle.output.specs.Emitted.{Emitted, InRange};
ghost use Rattle.answers.specs.Printed.{refused_text, state_line, total_line};
ghost use Rattle.printing.specs.Parts.{member, members, Shown};
ghost use Rattle.text.specs.PlacedNames.{names_in};

use kinds::refusals::Refusal;
use name_store::index::name_at;
use output::bytes::{emit, push};
use text::placed::PlacedNames;

pub fn emit_decimal(x: u64, out: &mut [u8], at: usize) -> usize
    requires { InRange at (decimal x) }
    ensures { Emitted out.old at (decimal x) out.new result }
{
    let digit = b'0' + (x % 10) as u8;
    if x < 10 {
        return push(digit, out, at);
    }
    let last = emit_decimal(x / 10, out, at);
    push(digit, out, last)
}

// `(refused NUMBER LINE)`
fn emit_refused(refusal: Refusal, line: usize, out: &mut [u8]) -> usize
    ensures { Emitted out.old 0 (refused_text refusal line) out.new result }
{
    let opened = emit(b"(refused ", out, 0);
    let numbered = emit_decimal(refusal.number(), out, opened);
    let spaced = push(b' ', out, numbered);
    let lined = emit_decimal(line as u64, out, spaced);
    emit(b")\n", out, lined)
}

fn has_atom(set: u64, atom: usize) -> bool
    requires { atom < 64 }
    ensures { result ≡ has set atom }
{
    (set >> atom) % 2 == 1
}

// An atom's name, if the set has it.
fn emit_member(set: u64, atom: usize, names: &PlacedNames, out: &mut [u8], at: usize) -> usize
    requires { (length names.now.starts.now ≤ 60) × (atom < length names.now.starts.now) × InRange at (member (names_in names.now) set atom) }
    ensures { Emitted out.old at (member (names_in names.now) set atom) out.new result }
{
    if has_atom(set, atom) {
        let next = push(b' ', out, at);
        return emit(name_at(names.bytes, names.starts, atom), out, next);
    }
    at
}

// The atoms of a set in declared order.
fn emit_members(set: u64, names: &PlacedNames, out: &mut [u8], at: usize) -> usize
    requires { (length names.now.starts.now ≤ 60) × InRange at (members (names_in names.now) set 0 (length names.now.starts.now)) }
    ensures { Emitted out.old at (members (names_in names.now) set 0 (length names.now.starts.now)) out.new result }
{
    let mut next = at;
    for atom in 0..names.starts.len() {
        next = emit_member(set, atom, names, out, next);
    }
    next
}

// `(state a b)`
pub fn emit_state(set: u64, names: &PlacedNames, out: &mut [u8], at: usize) -> usize
    requires { (length names.now.starts.now ≤ 60) × InRange at (state_line (names_in names.now) set) }
    ensures { Emitted out.old at (state_line (names_in names.now) set) out.new result }
{
    let opened = emit(b"(state", out, at);
    let listed = emit_members(set, names, out, opened);
    emit(b")\n", out, listed)
}

// `(total N)`
pub fn emit_total(count: u64, out: &mut [u8], at: usize) -> usize
    requires { InRange at (total_line count) }
    ensures { Emitted out.old at (total_line count) out.new result }
{
    let opened = emit(b"(total ", out, at);
    let counted = emit_decimal(count, out, opened);
    emit(b")\n", out, counted)
}

// All of a text where the output has room for it, else nothing.
pub fn show(text: &[u8], out: &mut [u8]) -> usize
    ensures { Shown text.now out.old out.new result }
{
    if out.len() < text.len() {
        return 0;
    }
    emit(text, out, 0)
}

// The longest refusal has two numbers of 20 digits.
pub fn show_refused(refusal: Refusal, line: usize, out: &mut [u8]) -> usize
    ensures { Shown (refused_text refusal line) out.old out.new result }
{
    let mut text = [0u8; 52];
    let size = emit_refused(refusal, line, &mut text);
    show(&text[0..size], out)
}
